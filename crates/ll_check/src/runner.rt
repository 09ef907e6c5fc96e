//! What makes the calls of tests, each time in a new tree.

ghost use Rattle.std.specs.Prelude.{◌≡◌, All, IfErr, IfOk};
ghost use Rattle.ll_session.specs.CallsRun.{Makes};
ghost use Rattle.ll_session.specs.Run.{MayEnd};
ghost use Rattle.ll_wire.specs.Entries.{IsEntry};

use ll_seq::History;
use ll_session::{CallReplies, ClientCall, RunFault, Setup, run_calls};
use std::alloc::Global;
use std::sync::Wait;

/// Makes calls in new trees.
pub trait Runner {
    /// Makes calls one after the other in a new tree, which is opened as a script's is. Returns the replies and the
    /// tree's history. Errors: a fault of the run, or memory ran out.
    fn run(
        &self,
        alloc: Global,
        setup: Setup,
        calls: Vec<ClientCall>,
    ) -> Result<(CallReplies, History), RunFault>
        ensures made { IfOk result (λ done. Makes setup calls.items done.0 done.1.entries) }
        ensures entries { IfOk result (λ done. All IsEntry done.1.entries) }
        ensures fault { IfErr result (λ fault. MayEnd setup fault) };
}

/// Makes calls in trees that threads may share.
#[derive(Drop)]
pub struct SharedRunner<'a, R: Wait> {
    /// The handle of a thread that may wait.
    pub rt: &'a R,
}

impl<R: Wait> Runner for SharedRunner<'_, R> {
    fn run(
        &self,
        alloc: Global,
        setup: Setup,
        calls: Vec<ClientCall>,
    ) -> Result<(CallReplies, History), RunFault> {
        run_calls(self.rt, alloc, setup, calls)
    }
}
