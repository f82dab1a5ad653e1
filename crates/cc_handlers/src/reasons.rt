// What the handlers that run do so for, frame by frame.
ghost use Rattle.std.specs.Prelude.{◌≡◌, [], ◌∷◌, OnOk, option_map};
ghost use Rattle.cc_handlers.specs.Pendings.{pending_of, now_of, below_of, first_of, innermost, rest_of, without};

use std::alloc::{AllocError, Global};
use std::mem;

/// Why a handler runs (ECMA-335, I.12.4.2.5 and III.3.46): an exception, by its place in the heap, is on its way out; a
/// leave is on its way to an offset; or an exception was caught.
#[derive(Clone, Copy)]
pub enum Pending {
    Unwinding(usize),
    Leaving(u32),
    Caught(usize),
}

/// What the handlers of the innermost frame run for, the innermost last, and those of the frames that wait, the nearest
/// last. A frame takes memory only once a handler of it is entered.
#[derive(Drop)]
pub struct PendingStack {
    pub running: Vec<Pending>,
    pub below: Vec<Vec<Pending>>,
}

impl PendingStack {
    /// That of a first frame.
    pub fn new(alloc: Global) -> PendingStack
        ensures now { now_of result ≡ [] }
        ensures below { below_of result ≡ [] }
    {
        PendingStack {
            running: Vec::new(alloc),
            below: Vec::new(alloc),
        }
    }

    /// What the innermost handler runs for, where one runs.
    pub fn top(&self) -> Option<Pending>
        ensures { option_map pending_of result ≡ innermost (now_of self.now) }
    {
        match self.running.last() {
            None => None,
            Some(pending) => Some(*pending),
        }
    }

    /// A handler is entered.
    pub fn enter_handler(&mut self, pending: Pending) -> Result<(), AllocError>
        ensures now { OnOk result (now_of self.new ≡ pending_of pending ∷ now_of self.old) }
        ensures below { below_of self.new ≡ below_of self.old }
    {
        self.running.push(pending)?;
        Ok(())
    }

    /// So many handlers are left.
    pub fn leave_handlers(&mut self, left: usize)
        ensures now { now_of self.new ≡ without left (now_of self.old) }
        ensures below { below_of self.new ≡ below_of self.old }
    {
        let count = self.running.len();
        if left >= count {
            self.running.clear();
        } else {
            self.running.truncate(count - left);
        }
    }

    /// A frame is entered.
    pub fn enter_frame(&mut self, alloc: Global) -> Result<(), AllocError>
        ensures now { OnOk result (now_of self.new ≡ []) }
        ensures below { OnOk result (below_of self.new ≡ now_of self.old ∷ below_of self.old) }
    {
        let waiting = mem::replace(&mut self.running, Vec::new(alloc));
        self.below.push(waiting)?;
        Ok(())
    }

    /// A frame is left.
    pub fn leave_frame(&mut self)
        ensures now { now_of self.new ≡ first_of (below_of self.old) }
        ensures below { below_of self.new ≡ rest_of (below_of self.old) }
    {
        match self.below.pop() {
            None => self.running.clear(),
            Some(waiting) => self.running = waiting,
        }
    }
}
