//! Many desks in threads: each place is done once.
ghost use Rattle.std.specs.Prelude.{◌≡◌, ◌<◌, ◌≤◌, IfOk, All, vec_len};

use ix_board::{Board, Desk};
use std::alloc::{AllocError, Global};
use std::sync::atomic::AtomicU64;
use std::sync::atomic::Ordering::SeqCst;
use std::test::Fail;
use std::thread;
use std::thread::Threads;

/// A piece that is neither `Copy` nor `Clone`.
#[derive(Drop)]
struct Token {
    place: usize,
}

// Delivers a token at each place that the desk holds or claims, until no place is open.
fn work(board: &Board<Token>, deliveries: &AtomicU64, mut desk: Desk<Token>) -> Desk<Token>
    requires { desk.board ≡ board.now }
    ensures { result.board ≡ desk.board }
{
    for _ in 0..=2_000_000 {
        let place = match desk.held() {
            Some(first) => first,
            None => match desk.claim(board) {
                Some(claimed) => claimed,
                None => break,
            },
        };
        deliveries.fetch_add(1, SeqCst);
        desk.deliver(board, Token { place });
    }
    desk
}

// Each desk in a thread of its own.
fn work_in_threads<R: Threads + Sync>(
    rt: &R,
    board: &Board<Token>,
    deliveries: &AtomicU64,
    desks: Vec<Desk<Token>>,
) -> Result<Vec<Desk<Token>>, AllocError>
    requires { All (λ d. d.board ≡ board.now) desks.items }
    ensures count { IfOk result (λ v. vec_len v ≡ vec_len desks) }
    ensures own { IfOk result (λ v. All (λ d. d.board ≡ board.now) v.items) }
{
    thread::map_vec(rt, desks, &|desk| work(board, deliveries, desk))
}

// How many tokens were delivered by as many threads as there are workers, and the pieces.
fn work_out<R: Threads + Sync>(
    rt: &R,
    alloc: Global,
    count: usize,
    workers: usize,
) -> Result<(u64, Vec<Option<Token>>), Fail>
    requires { (0 < workers) × (workers ≤ 64) }
{
    let deliveries = AtomicU64::new(0);
    let (board, desks) = Board::open(alloc, count, workers)?;
    let desks = work_in_threads(rt, &board, &deliveries, desks)?;
    let pieces = board.close(desks);
    Ok((deliveries.load(SeqCst), pieces))
}

/// Places, workers, and how often they are worked out.
const BOARDS: [(usize, usize, u32); 3] = [(0, 64, 1), (10_000, 64, 100), (2_000_000, 2, 1)];

#[test]
fn many_desks_in_threads(rt: HostRuntime) -> Result<(), Fail> {
    for (count, workers, times) in BOARDS {
        for _ in 0..times {
            let (deliveries, pieces) = work_out(&rt, rt.alloc(), count, workers)?;
            assert_eq!(rt; deliveries, count as u64);
            assert_eq!(rt; pieces.len(), count);
            for (place, piece) in pieces.iter().enumerate() {
                assert!(rt;
                    piece.as_ref().is_some_and(|token| token.place == place),
                    "at {place}"
                );
            }
        }
    }
    Ok(())
}
