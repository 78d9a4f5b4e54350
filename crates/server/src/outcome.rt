// How a run of nodes ended.

ghost use Rattle.std.specs.Prelude.{◌≡◌, ◌<◌, ◌≤◌, ◌⊎◌, [], None, Some, IfErr, IfOk, IsPermutation, MatchBool, OnErr, OnOk, vec_capacity, vec_len};
ghost use Rattle.std.specs.List.Sorted.{IsNonDecreasingBy};
ghost use Rattle.server.specs.Inside.{AddsEnded, Fails};

use crate::node_threads::EndedNode;
use crate::serve_error::ServeError;
use machine::Memory;
use run_history::RunNaming;
use std::alloc::{AllocError, Global};

/// The nodes as they ended, or why one was not served.
#[derive(Drop)]
pub(crate) struct Outcome<H: RunNaming> {
    // In the order in which they came.
    ended: Vec<EndedNode<H>>,
    // The first cause why a node was not served.
    failure: Option<ServeError>,
}

impl<H: RunNaming> Outcome<H> {
    /// Returns an empty outcome, with capacity for this many nodes. The only error is that memory
    /// ran out.
    pub(crate) fn new(alloc: Global, count: usize) -> Result<Outcome<H>, AllocError>
        ensures empty { IfOk result (λ outcome. outcome.ended.items ≡ []) }
        ensures served { IfOk result (λ outcome. outcome.failure ≡ None) }
        ensures capacity { IfOk result (λ outcome. count ≤ vec_capacity outcome.ended) }
    {
        Ok(Outcome {
            ended: Vec::with_capacity(alloc, count)?,
            failure: None,
        })
    }

    /// Keeps a node with its report. If there is none, or memory runs out, keeps
    /// [`ServeError::Memory`] as the cause.
    pub(crate) fn keep(&mut self, closed: Result<EndedNode<H>, Memory>)
        ensures ended { IfOk closed (λ one.
            AddsEnded one self.old self.new ⊎ Fails ServeError.Memory self.old self.new) }

        // If there is capacity for the node, it is kept.
        ensures capacity { IfOk closed (λ one.
            vec_len self.old.ended < vec_capacity self.old.ended
            → AddsEnded one self.old self.new) }
        ensures none { OnErr closed (Fails ServeError.Memory self.old self.new) }
    {
        match closed {
            Ok(one) => self.add(one),
            Err(_) => self.fail(ServeError::Memory),
        }
    }

    // Keeps a node with its report; if memory runs out, [`ServeError::Memory`] as the cause.
    fn add(&mut self, one: EndedNode<H>)
        ensures ended { AddsEnded one self.old self.new
            ⊎ Fails ServeError.Memory self.old self.new }
        ensures capacity { vec_len self.old.ended < vec_capacity self.old.ended
            → AddsEnded one self.old self.new }
    {
        match self.ended.push(one) {
            Ok(()) => {}
            Err(_) => self.fail(ServeError::Memory),
        }
    }

    /// Keeps [`ServeError::Threads`] as the cause unless all threads of nodes could be started.
    pub(crate) fn expect_started(&mut self, all_started: bool)
        ensures { MatchBool all_started
            (self.new ≡ self.old) (Fails ServeError.Threads self.old self.new) }
    {
        if !all_started {
            self.fail(ServeError::Threads);
        }
    }

    /// Keeps why a node was not served, unless a cause was kept before.
    pub(crate) fn fail(&mut self, error: ServeError)
        ensures { Fails error self.old self.new }
    {
        self.failure = self.failure.or(Some(error));
    }

    /// Returns the nodes with their reports by the nodes' numbers, or the first cause why a node
    /// was not served.
    pub(crate) fn into_ended(self) -> Result<Vec<EndedNode<H>>, ServeError>
        ensures same { IfOk result (λ ended. IsPermutation self.ended.items ended.items) }
        ensures sorted { IfOk result (λ ended.
            IsNonDecreasingBy (λ one. one.report.number) ended.items) }
        ensures served { OnOk result (self.failure ≡ None) }
        ensures failed { IfErr result (λ error. self.failure ≡ Some error) }
    {
        let Outcome { ended, failure } = self;
        match failure {
            Some(error) => Err(error),
            None => Ok(by_number(ended)),
        }
    }
}

// Returns these in the order of the nodes' numbers.
fn by_number<H: RunNaming>(ended: Vec<EndedNode<H>>) -> Vec<EndedNode<H>>
    ensures same { IsPermutation ended.items result.items }
    ensures sorted { IsNonDecreasingBy (λ one. one.report.number) result.items }
{
    let mut sorted = ended;
    sorted.sort_unstable_by_key(|one| one.report.number);
    sorted
}
