//! Numbers that workers draw.

ghost use Rattle.std.specs.Prelude.{◌≡◌, ◌<◌, ◌≤◌, IfOk, IfErr};

use std::alloc::AllocError;
use std::sync::atomic::{AtomicUsize, Ordering};

/// The numbers from 0 to below a count, for workers that share them by drawing.
#[derive(Drop)]
pub(crate) struct Numbers {
    next: AtomicUsize,
    count: usize,
}

/// A number that a worker has drawn. It cannot be dropped: whoever drew it has to use it.
pub(crate) struct Drawn {
    number: usize,
}

/// A number past the last one was drawn, so no number is left.
#[derive(Drop)]
pub(crate) struct NoneLeft {
    number: usize,
}

/// Why a worker stopped.
#[derive(Drop)]
pub(crate) enum End {
    /// No number was left.
    NoneLeft(NoneLeft),
    /// Memory was refused.
    Refused(AllocError),
    /// It drew as many numbers as there are.
    AllDrawn,
}

impl From<NoneLeft> for End {
    ghost use Rattle.std.specs.Prelude.{◌≡◌};
    ghost use Rattle.parallel_check.specs.declared.numbers.End.TheVariants as ends;

    ghost from_gives = { λ n e. e ≡ ends.NoneLeft n };

    fn from(left: NoneLeft) -> End {
        End::NoneLeft(left)
    }
}

impl From<AllocError> for End {
    ghost use Rattle.std.specs.Prelude.{◌≡◌};
    ghost use Rattle.parallel_check.specs.declared.numbers.End.TheVariants as ends;

    ghost from_gives = { λ r e. e ≡ ends.Refused r };

    fn from(error: AllocError) -> End {
        End::Refused(error)
    }
}

impl Numbers {
    /// The numbers from 0 to below a count.
    pub(crate) fn below(count: usize) -> Numbers
        ensures { result.count ≡ count }
    {
        Numbers {
            next: AtomicUsize::new(0),
            count,
        }
    }

    /// How many numbers there are.
    pub(crate) fn count(&self) -> usize
        ensures { result ≡ self.now.count }
    {
        self.count
    }

    /// Draws the next number.
    pub(crate) fn draw(&self) -> Result<Drawn, NoneLeft>
        ensures drawn { IfOk result (λ d. d.number < self.now.count) }
        ensures left { IfErr result (λ n. self.now.count ≤ n.number) }
    {
        let number = self.next.fetch_add(1, Ordering::SeqCst);
        if number < self.count {
            Ok(Drawn { number })
        } else {
            Err(NoneLeft { number })
        }
    }
}

impl Drawn {
    /// The number.
    pub(crate) fn number(&self) -> usize
        ensures { result ≡ self.now.number }
    {
        self.number
    }

    /// The number, for its use.
    pub(crate) fn used(self) -> usize
        ensures { result ≡ self.number }
    {
        let Drawn { number } = self;
        number
    }
}
