//! Teams: threads that answer queries side by side.
ghost use Rattle.std.specs.Prelude.{◌≡◌, ◌<◌, IfOk, map};
ghost use Rattle.ix_live.specs.Histories.{operations_in};
ghost use Rattle.ix_script.specs.Answers.{AreAnswers, names_in};

use crate::ask::{all_found, find_each, unanswered};
use ix_live::News;
use ix_query::Query;
use std::alloc::Global;
use std::marker::Model;
use std::thread::Threads;

/// How many threads answer queries, one or more, and the news after which they do. Contracts see
/// the stop set and the history of the news.
#[derive(Drop)]
pub struct Team {
    threads: usize,
    news: News,
}

impl Model for Team {
    ghost use Rattle.std.specs.Prelude.{◌<◌};
    ghost use Rattle.ix_live.specs.Histories.{Known};

    ghost Value = { Known };

    ghost view = { λ team. team.news };

    ghost invariant = { λ team. 0 < team.threads };
}

impl Team {
    /// Threads that are to answer after these news.
    pub fn new(threads: usize, news: News) -> Team
        requires { 0 < threads }
        ensures { result ≡ news }
    {
        Team { threads, news }
    }

    /// From now on they are to answer after these news.
    pub fn learn(&mut self, news: News)
        ensures { self.new ≡ news }
    {
        self.news = news;
    }

    /// The answers to these queries after just the history of the news, in order, found by at most
    /// that many threads.
    ///
    /// If out of memory, the error is the place of the first query that was not answered.
    pub fn answer<R: Threads + Sync>(
        &self,
        rt: &R,
        alloc: Global,
        queries: &[&Query],
    ) -> Result<Vec<Vec<String>>, usize>
        ensures { IfOk result (λ answers. AreAnswers self.now.stop (operations_in self.now.history)
            (map (λ query. query.now) queries.now) (map names_in answers.items)) }
    {
        let Ok(mut found) = unanswered(alloc, queries.len()) else {
            return Err(0);
        };
        find_each(rt, alloc, &self.news, self.threads, queries, &mut found);
        all_found(alloc, found)
    }
}
