//! From a text to its tree: one turn a lexeme, with what is open on a stack of its own.

ghost use Rattle.std.specs.Prelude.{◌≡◌, [], ◌∷◌, ◌++◌, map, Ok, IfOk, IfErr};
ghost use Rattle.ix_query_text.specs.QueryErrors.{Gives};
ghost use Rattle.ix_query_text.specs.Lexemes.{lexeme_of};
ghost use Rattle.ix_query_text.specs.Grammar.{joined_by};
ghost use Rattle.ix_query_text.specs.Machine as machine;
ghost use Rattle.ix_query_text.specs.Parsing.{frame_of, frames_of, pending_of, state_of};

use crate::error::QueryError;
use crate::judge::{beside, plain, quoted};
use crate::lexeme::{Lexeme, Sign, lexemes};
use crate::proper::MAX_OPEN;
use crate::tree::{Boxed, Items, Term, Tree};
use ix_text::StopList;
use std::alloc::Global;

/// What is open.
#[derive(Drop)]
enum Frame {
    /// A NOT whose operand is not yet read.
    Negating,
    /// A bracket, with the parts that were read before it.
    Inside { ors: Items<Tree>, ands: Items<Tree> },
}

/// Where the reading stands.
#[derive(Drop)]
enum Place<'a> {
    /// An operand has to come.
    Operand,
    /// An operand was read.
    Operator,
    /// A run was read, and is not yet judged.
    AfterRun(&'a str),
    /// A run and NEAR were read: the run's term, and the distance.
    AfterNear(Term, u32),
}

/// What was read and is not yet a tree: what is open, the innermost last; and of the innermost
/// bracket the complete parts between ORs, and behind the last OR those between ANDs.
#[derive(Drop)]
struct Pending {
    frames: Items<Frame>,
    ors: Items<Tree>,
    ands: Items<Tree>,
}

#[derive(Drop)]
struct State<'a> {
    place: Place<'a>,
    pending: Pending,
}

/// The tree of a text, or its first fault: a fault of the lexemes comes before any of the grammar.
#[tactic(auto, unfolding(crate::specs::Machine::query_of))]
pub fn parse_text(alloc: Global, text: &str, stop: &StopList) -> Result<Tree, QueryError>
    ensures { Gives (λ q. q) result (machine.query_of stop.now text.now) }
{
    let lexemes = lexemes(alloc, text)?;
    parse_lexemes(alloc, stop, &lexemes)
}

/// The tree of the lexemes, or their first fault.
#[tactic(auto, unfolding(crate::specs::Machine::tree_of))]
fn parse_lexemes(alloc: Global, stop: &StopList, lexemes: &[Lexeme<'_>]) -> Result<Tree, QueryError>
    ensures { Gives (λ q. q) result (machine.tree_of stop.now (map lexeme_of lexemes.now)) }
{
    let Some((first, rest)) = lexemes.split_first() else {
        return Err(QueryError::Empty);
    };
    let mut state = step(alloc, stop, start(alloc), *first)?;
    for lexeme in rest {
        state = step(alloc, stop, state, *lexeme)?;
    }
    finish(alloc, stop, state)
}

fn start<'a>(alloc: Global) -> State<'a>
    ensures { state_of result ≡ machine.start }
{
    let pending = Pending {
        frames: Items::new(alloc),
        ors: Items::new(alloc),
        ands: Items::new(alloc),
    };
    State {
        place: Place::Operand,
        pending,
    }
}

/// One turn.
fn step<'a>(
    alloc: Global,
    stop: &StopList,
    state: State<'a>,
    lexeme: Lexeme<'a>,
) -> Result<State<'a>, QueryError>
    ensures { Gives state_of result
        (machine.step stop.now (state_of state.entry) (lexeme_of lexeme.entry)) }
{
    let State { place, pending } = state;
    match place {
        Place::Operand => pending.at_operand(alloc, stop, lexeme),
        Place::Operator => pending.at_operator(alloc, lexeme),
        Place::AfterRun(words) => pending.after_run(alloc, stop, words, lexeme),
        Place::AfterNear(first, distance) => {
            pending.after_near(alloc, stop, first, distance, lexeme)
        }
    }
}

/// The end of the lexemes.
fn finish(alloc: Global, stop: &StopList, state: State<'_>) -> Result<Tree, QueryError>
    ensures { Gives (λ q. q) result (machine.finish stop.now (state_of state.entry)) }
{
    let State { place, pending } = state;
    match place {
        Place::Operator => pending.ended(),
        Place::AfterRun(words) => {
            let part = plain(alloc, stop, words)?;
            pending.filled(alloc, part)?.ended()
        }
        _ => Err(QueryError::End),
    }
}

impl Pending {
    /// A lexeme where an operand has to come.
    fn at_operand<'a>(
        self,
        alloc: Global,
        stop: &StopList,
        lexeme: Lexeme<'a>,
    ) -> Result<State<'a>, QueryError>
        ensures { Gives state_of result
            (machine.at_operand stop.now (pending_of self) (lexeme_of lexeme.entry)) }
    {
        match lexeme.sign {
            Sign::Open => {
                let Pending { frames, ors, ands } = self;
                let bracket = Frame::Inside { ors, ands };
                opened(frames, bracket, Items::new(alloc), Items::new(alloc))
            }
            Sign::Not => opened(self.frames, Frame::Negating, self.ors, self.ands),
            Sign::Quoted(words) => {
                let part = quoted(alloc, stop, words)?;
                let pending = self.filled(alloc, part)?;
                Ok(State {
                    place: Place::Operator,
                    pending,
                })
            }
            Sign::Run(words) => Ok(State {
                place: Place::AfterRun(words),
                pending: self,
            }),
            _ => Err(QueryError::Unexpected(lexeme.offset)),
        }
    }

    /// A lexeme behind an operand.
    fn at_operator<'a>(self, alloc: Global, lexeme: Lexeme<'_>) -> Result<State<'a>, QueryError>
        ensures { Gives state_of result
            (machine.at_operator (pending_of self) (lexeme_of lexeme.entry)) }
    {
        match lexeme.sign {
            Sign::And => Ok(State {
                place: Place::Operand,
                pending: self,
            }),
            Sign::Or => {
                let pending = self.behind_or(alloc)?;
                Ok(State {
                    place: Place::Operand,
                    pending,
                })
            }
            Sign::Close => {
                let Pending { frames, ors, ands } = self;
                closed(alloc, lexeme.offset, frames, joined(ors, ands)?)
            }
            _ => Err(QueryError::Unexpected(lexeme.offset)),
        }
    }

    /// A lexeme behind a run, which is judged before it.
    fn after_run<'a>(
        self,
        alloc: Global,
        stop: &StopList,
        words: &str,
        lexeme: Lexeme<'_>,
    ) -> Result<State<'a>, QueryError>
        ensures { Gives state_of result
            (machine.after_run stop.now words.now (pending_of self) (lexeme_of lexeme.entry)) }
    {
        if let Sign::Near(distance) = lexeme.sign {
            let first = beside(alloc, stop, words)?;
            return Ok(State {
                place: Place::AfterNear(first, distance),
                pending: self,
            });
        }
        let part = plain(alloc, stop, words)?;
        self.filled(alloc, part)?.at_operator(alloc, lexeme)
    }

    /// A lexeme behind a run and NEAR.
    fn after_near<'a>(
        self,
        alloc: Global,
        stop: &StopList,
        first: Term,
        distance: u32,
        lexeme: Lexeme<'_>,
    ) -> Result<State<'a>, QueryError>
        ensures { Gives state_of result
            (machine.after_near stop.now first distance (pending_of self)
            (lexeme_of lexeme.entry)) }
    {
        match lexeme.sign {
            Sign::Run(words) => {
                let second = beside(alloc, stop, words)?;
                let part = Tree::Near {
                    first,
                    second,
                    distance,
                };
                let pending = self.filled(alloc, part)?;
                Ok(State {
                    place: Place::Operator,
                    pending,
                })
            }
            _ => Err(QueryError::Unexpected(lexeme.offset)),
        }
    }

    /// An operand was read: the innermost NOTs take it.
    fn filled(self, alloc: Global, part: Tree) -> Result<Pending, QueryError>
        ensures { Gives pending_of result (Ok (machine.filled (pending_of self) part)) }
    {
        let Pending {
            frames,
            ors,
            mut ands,
        } = self;
        let (frames, part) = under_nots(alloc, frames, part)?;
        ands.push(part)?;
        Ok(Pending { frames, ors, ands })
    }

    /// An OR was read: the parts before it are complete.
    fn behind_or(self, alloc: Global) -> Result<Pending, QueryError>
        ensures { Gives pending_of result (Ok (machine.behind_or (pending_of self))) }
    {
        let Pending { frames, ors, ands } = self;
        let ors = completed(ors, ands)?;
        Ok(Pending {
            frames,
            ors,
            ands: Items::new(alloc),
        })
    }

    /// The end of the lexemes, behind an operand.
    fn ended(self) -> Result<Tree, QueryError>
        ensures { Gives (λ q. q) result
            (machine.ended (frames_of self.frames) (machine.joined (pending_of self))) }
    {
        let Pending { frames, ors, ands } = self;
        if frames.is_empty() {
            joined(ors, ands)
        } else {
            Err(QueryError::End)
        }
    }
}

/// One more is open.
fn opened<'a>(
    mut frames: Items<Frame>,
    frame: Frame,
    ors: Items<Tree>,
    ands: Items<Tree>,
) -> Result<State<'a>, QueryError>
    ensures { Gives state_of result (machine.opened (frames_of frames) (frame_of frame) ors ands) }
{
    if frames.len() >= MAX_OPEN {
        return Err(QueryError::Deep);
    }
    frames.push(frame)?;
    Ok(State {
        place: Place::Operand,
        pending: Pending { frames, ors, ands },
    })
}

/// A closing bracket: the bracket's tree is an operand.
fn closed<'a>(
    alloc: Global,
    offset: usize,
    mut frames: Items<Frame>,
    part: Tree,
) -> Result<State<'a>, QueryError>
    ensures { Gives state_of result (machine.closed offset (frames_of frames) part) }
{
    match frames.pop() {
        Some(Frame::Inside { ors, ands }) => {
            let pending = Pending { frames, ors, ands }.filled(alloc, part)?;
            Ok(State {
                place: Place::Operator,
                pending,
            })
        }
        _ => Err(QueryError::Unexpected(offset)),
    }
}

/// The frames behind the innermost NOTs, and the part under these.
fn under_nots(
    alloc: Global,
    mut frames: Items<Frame>,
    mut part: Tree,
) -> Result<(Items<Frame>, Tree), QueryError>
    ensures frames { IfOk result (λ r. frames_of r.0 ≡ machine.behind_nots (frames_of frames)) }
    ensures part { IfOk result (λ r. r.1 ≡ machine.under_nots (frames_of frames) part) }
    ensures memory { IfErr result (λ e. e ≡ QueryError.Memory) }
{
    while let Some(Frame::Negating) = frames.as_slice().last() {
        frames.pop();
        part = Tree::Not(Boxed::new(alloc, part)?);
    }
    Ok((frames, part))
}

/// The tree of a bracket's parts.
fn joined(ors: Items<Tree>, ands: Items<Tree>) -> Result<Tree, QueryError>
    ensures { Gives (λ q. q) result (Ok (joined_by Tree.Or (ors ++ joined_by Tree.And ands ∷ []))) }
{
    Ok(any_of(completed(ors, ands)?))
}

/// The complete parts between ORs, with the last one.
fn completed(mut ors: Items<Tree>, ands: Items<Tree>) -> Result<Items<Tree>, QueryError>
    ensures { Gives (λ parts. parts) result (Ok (ors ++ joined_by Tree.And ands ∷ [])) }
{
    ors.push(all_of(ands))?;
    Ok(ors)
}

/// One part is itself, and several are joined by AND.
fn all_of(mut parts: Items<Tree>) -> Tree
    ensures { result ≡ joined_by Tree.And parts }
{
    if parts.len() == 1 {
        parts.remove(0)
    } else {
        Tree::And(parts)
    }
}

/// One part is itself, and several are joined by OR.
fn any_of(mut parts: Items<Tree>) -> Tree
    ensures { result ≡ joined_by Tree.Or parts }
{
    if parts.len() == 1 {
        parts.remove(0)
    } else {
        Tree::Or(parts)
    }
}
