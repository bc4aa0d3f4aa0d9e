// A box on standard output and standard input, or a file that an argument names: byte 1 is a tick, 2 and 3 are buttons 1 and 2, every other byte
// goes to the wire, and the replies are gathered and go out before more input is waited for.
// What each byte does, to the box, to every lent byte and to what is gathered, is in contracts, by specs/Inputs.antt; which bytes were read, and which
// went out, is in none, since the library's have none.
#![tactic(auto)]

ghost use Rattle.std.specs.Prelude.{◌≡◌, [], ◌∷◌, ◌≤◌, length};
ghost use Rattle.controller.specs.Refusals.{tick, press, byte};
ghost use Rattle.streams.specs.Gathering.{nothing_gathered};
ghost use Rattle.console.specs.Inputs.{made, held_by, reply_of, Does, call_of, Takes, Feeds, Hears, Turns, Ends, begins};

use calls::SwitchBox;
use std::marker::Model;
use streams::input::Input;
use streams::{Output, arguments};

// How many bytes of replies are gathered before they go out.
const BLOCK: usize = 4096;

// The box, and the areas that it is lent again and again.
#[derive(Drop)]
pub struct Bench {
    held: SwitchBox,
    program: [u8; lines::PROGRAM],
    saved: [u8; lines::PROGRAM],
    log: [u8; boxlog::LEAST_AREA],
}

impl Model for Bench {
    ghost use Rattle.controller.specs.Invariant.{Invariant};
    ghost use Rattle.console.specs.Inputs.{Held, holding};

    ghost Value = { Held };

    ghost view = { λ h. holding h.held h.program h.saved h.log };

    ghost invariant = { λ h. Invariant h.held.controller };
}

impl Bench {
    // A box with an all-zero saved copy and the smallest log, after its power-on.
    fn power_on() -> Bench
        ensures begins { result ≡ begins }
    {
        let mut program = [0u8; lines::PROGRAM];
        let saved = [0u8; lines::PROGRAM];
        let log = [0u8; boxlog::LEAST_AREA];
        let a = SwitchBox::power_on(&mut program, &saved, &log);
        let held = a.next;
        Bench {
            held,
            program,
            saved,
            log,
        }
    }

    // Kept: each call below takes the box by value and gives the next one, which is put back: a rule of the project.

    // A tick.
    fn tick(&mut self)
        ensures held { self.new ≡ held_by tick self.old (made tick self.old) }
        ensures silent { reply_of (made tick self.old) ≡ [] }
    {
        let Bench {
            held,
            program,
            log,
            ..
        } = self;
        let a = held.tick(program, log);
        *held = a.next;
    }

    // A press of button n.
    fn press(&mut self, n: u32)
        ensures held { self.new ≡ held_by (press n) self.old (made (press n) self.old) }
        ensures silent { reply_of (made (press n) self.old) ≡ [] }
    {
        let Bench {
            held,
            program,
            log,
            ..
        } = self;
        let a = held.press(n, program, log);
        *held = a.next;
    }

    // A byte to the wire, and its reply.
    fn byte(&mut self, x: u8, output: &mut Output<BLOCK>)
        ensures does { Does BLOCK (byte x ∷ []) self.old output.old self.new output.new }
    {
        let mut reply = [0u8; 16];
        let Bench {
            held,
            program,
            saved,
            log,
        } = self;
        let a = held.byte(x, program, saved, log, &mut reply);
        *held = a.next;
        output.put_first(&reply, a.written());
    }

    // One byte of input. Here and below, the answer is whether there may be more.
    fn take(&mut self, x: u8, output: &mut Output<BLOCK>) -> bool
        ensures takes { Takes BLOCK (call_of x) self.old output.old result self.new output.new }
    {
        match x {
            1 => self.tick(),
            2 => self.press(1),
            3 => self.press(2),
            _ => self.byte(x, output),
        }
        output.is_open()
    }

    // The bytes of input that have come, one after the other, as long as the output takes the replies.
    fn feed(&mut self, input: &[u8], output: &mut Output<BLOCK>) -> bool
        ensures feeds { Feeds BLOCK input.now self.old output.old result self.new output.new }
    {
        for x in input {
            if !self.take(*x, output) {
                return false;
            }
        }
        true
    }

    // What a read gave is fed to the box: the first n bytes of the buffer. None are the end of the input.
    // It stands apart from the read, whose bytes no contract names, so that its own can name them.
    fn hear(&mut self, input: &[u8], n: usize, output: &mut Output<BLOCK>) -> bool
        requires { n ≤ length input.now }
        ensures hears { Hears BLOCK n input.now self.old output.old result self.new output.new }
    {
        if n == 0 {
            return false;
        }
        self.feed(&input[..n], output)
    }

    // What is gathered goes out, input is read once, and what came is fed to the box. A read that failed is taken as the end of the input.
    fn turn(&mut self, input: &Input, output: &mut Output<BLOCK>) -> bool
        ensures turns { Turns BLOCK self.old output.old result self.new output.new }
    {
        let mut bytes = [0u8; 4096];
        output.flush();
        if !output.is_open() {
            return false;
        }
        match input.read_once(&mut bytes) {
            Ok(n) => self.hear(&bytes, n, output),
            Err(_) => false,
        }
    }

    // Input to its end. A proved loop has to end, and no run uses up so many turns.
    fn turns(&mut self, input: &Input, output: &mut Output<BLOCK>) -> bool
        requires { (self.old ≡ begins) × (output.old ≡ nothing_gathered) }
        ensures ends { Ends BLOCK result self.new output.new }
    {
        for _turn in 0..u64::MAX {
            if !self.turn(input, output) {
                return false;
            }
        }
        true
    }
}

// A box from power-on to the end of the input: of standard input, or of the file that an argument names.
pub fn run(rt: &HostRuntime, usage: &[u8]) {
    if !arguments::fit(rt, 1, 1, usage) {
        return;
    }
    let Ok(input) = Input::from(rt, 1) else {
        return;
    };
    let _ = Bench::power_on().turns(&input, &mut Output::new(rt));
}
