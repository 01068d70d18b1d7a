// A run that can go on: the tests 10 and 11, and what its slot goes by.
ghost use Rattle.std.specs.Prelude.{◌≡◌, ◌<◌, true, false};
ghost use Rattle.intervals.specs.Layout.{layout_of};
ghost use Rattle.ready.specs.Ready.{set_of};
ghost use Rattle.executive.specs.Run.{current_hi, current_lo};
ghost use Rattle.executive.specs.Coherent.{coherent};
ghost use Rattle.executive.specs.Choice.{members};
ghost use Rattle.executive.specs.Sound.{Whole};

use crate::Run;
use answers::Refusal;
use intervals::Layout;
use ready::ready_set;
use spares::Spare;

// A coherent run before its last border, the layout of its plan, the current spares, and the set of the ready jobs.
#[derive(Clone, Copy)]
pub(crate) struct Going<'a> {
    pub run: &'a Run,
    pub layout: Layout,
    pub hi: Spare,
    pub lo: Spare,
    pub ready: u32,
    pub ghost whole: { Whole run.now },
    pub ghost coherent: { coherent run.now ≡ true },
    pub ghost before: { run.now.t < run.now.plan.slots },
    pub ghost laid: { layout ≡ layout_of run.now.plan },
    pub ghost hi_now: { hi ≡ current_hi run.now },
    pub ghost lo_now: { lo ≡ current_lo run.now },
    pub ghost ready_now: { ready ≡ set_of (members false run.now) },
}

impl Run {
    ghost use Rattle.std.specs.Prelude.{IfOk, IfErr, Err};
    ghost use Rattle.executive.specs.Choice.{can_go_on};

    // 10, then 11.
    pub(crate) fn going(&self) -> Result<Going<'_>, Refusal>
        requires { Whole self.now }
        ensures going { IfOk result (λ g. g.run.now ≡ self.now) }
        ensures refused { IfErr result (λ e. Err e ≡ can_go_on self.now) }
    {
        let layout = self.coherent_layout().ok_or(Refusal::Incoherent)?;
        if self.plan.slots <= self.t {
            return Err(Refusal::Over(self.t));
        }
        Ok(Going {
            run: self,
            layout,
            hi: spares::current(&layout, self.t, &self.hi),
            lo: spares::current(&layout, self.t, &self.lo),
            ready: ready_set(self.t, &self.plan.job, &self.entry, self.plan.jobs),
        })
    }
}
