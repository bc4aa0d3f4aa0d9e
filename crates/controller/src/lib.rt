// The controller: the state that passes through every call by value. What the five calls do with it is defined in specs/; the code
// that does it is in deeds, answers and calls, and the parts that `calls` alters are set here.
#![tactic(auto)]

ghost use Rattle.std.specs.Prelude.{◌≡◌};
ghost use Rattle.controller.specs.Controller.{with_panel, with_log, with_wire};

use boxlog::Log;
use running::Run;
use variables::Panel;
use wire::Wire;

#[repr(C)]
#[derive(Clone, Copy)]
pub struct Controller {
    pub run: Run,
    pub paused: bool,
    // the tick count
    pub ticks: u32,
    pub panel: Panel,
    pub log: Log,
    pub wire: Wire,
}

impl Controller {
    pub fn with_panel(mut self, panel: Panel) -> Controller
        ensures state { result ≡ with_panel panel self }
    {
        self.panel = panel;
        self
    }

    pub fn with_log(mut self, log: Log) -> Controller
        ensures state { result ≡ with_log log self }
    {
        self.log = log;
        self
    }

    pub fn with_wire(mut self, wire: Wire) -> Controller
        ensures state { result ≡ with_wire wire self }
    {
        self.wire = wire;
        self
    }
}
