ghost use Rattle.std.specs.Prelude.{◌≡◌};
ghost use Rattle.history_lock.specs.declared.view.Known.{Known};
ghost use Rattle.history_lock.specs.Passes.{IsPassOf, known, leads, opening, parts};
ghost use Rattle.worker_crew.specs.declared.rule.Account.{Account};
ghost use Rattle.worker_crew.specs.Takers.{IsTakerOf, account, shares};

use crate::lobby::Lobby;
use crate::queue::{JobPass, Jobs};
use history_lock::{Hall, Machine, Pass};
use std::sync::Wait;

/// Who calls a machine beside workers, and offers them items.
pub trait Drives<M: Machine, T> {
    /// With what its passes may know it may begin.
    ghost ready: { Self → Known M M.Entry M.Reply → Account T → Type 0 };

    /// What it does to itself and to what its passes know: itself before and behind, and both passes before and behind.
    ghost drives: { Self → Self → Known M M.Entry M.Reply → Account T → Known M M.Entry M.Reply → Account T → Type 0 };

    /// Drives to its end. The lobby needn't be closed.
    fn drive<R: Wait>(
        &mut self,
        rt: &R,
        hall: &Hall<M>,
        pass: &mut Pass<M>,
        jobs: &Jobs<T>,
        taker: &mut JobPass<T>,
        lobby: &Lobby,
    )
        requires hall { IsPassOf hall.now pass.old }
        requires taker { IsTakerOf jobs.now taker.old }
        requires ready { ready self.old (known pass.old) (account taker.old) }
        ensures stays { IsPassOf hall.now pass.new × (opening pass.new ≡ opening pass.old) × (parts pass.new ≡ parts pass.old) }
        ensures leads { leads pass.new ≡ leads pass.old }
        ensures taker { IsTakerOf jobs.now taker.new × (shares taker.new ≡ shares taker.old) }
        ensures drives { drives self.old self.new (known pass.old) (account taker.old) (known pass.new) (account taker.new) };
}
