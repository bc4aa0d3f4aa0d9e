// What is told of a plan, or of a text that is none, gathered for output. Definitions: specs/Telling.antt.
ghost use Rattle.std.specs.Prelude.{true, ◌+◌, ◌*◌, ◌≤◌, ◌<◌, ◌≡◌};
ghost use Rattle.streams.specs.Gathering.{nothing_gathered, Follows};
ghost use Rattle.planner.specs.Plan.{moves_of};
ghost use Rattle.planner.specs.Planned.{is_counted};
ghost use Rattle.plan.specs.Telling.{clock, ticks, clocks, stretch, move_line, total_line, table, told, fault_text, fault_lines};
ghost use Rattle.plan.specs.Reading.{numbers_of};

use planner::Move;
use plantext::{Fault, Reader};
use streams::Output;

// How many bytes are gathered before they go out: all that is told of a text has room.
const BLOCK: usize = 4096;

// Each function below puts text behind what is gathered.

// ---- the table

// A tick in minutes, seconds and tenths.
#[tactic(auto, unfolding(crate::specs::Telling::clock, formats::specs::Checks::text), using(streams::proofs::Following::follows_more))]
fn put_clock(output: &mut Output<BLOCK>, tick: u64)
    ensures follows { Follows BLOCK output.old (clock tick) output.new }
{
    output.put_decimal(tick / 600);
    output.put(b":");
    output.put_digits(10, 2, tick / 10 % 60);
    output.put(b".");
    output.put_digits(10, 1, tick % 10);
}

// The ticks at which something begins and ends.
#[tactic(auto, unfolding(crate::specs::Telling::ticks, formats::specs::Checks::text), using(streams::proofs::Following::follows_more))]
fn put_ticks(output: &mut Output<BLOCK>, from: u64, to: u64)
    ensures follows { Follows BLOCK output.old (ticks from to) output.new }
{
    output.put_decimal(from);
    output.put(b" to ");
    output.put_decimal(to);
}

// The same in minutes and seconds.
#[tactic(auto, unfolding(crate::specs::Telling::clocks, formats::specs::Checks::text), using(streams::proofs::Following::follows_more))]
fn put_clocks(output: &mut Output<BLOCK>, from: u64, to: u64)
    ensures follows { Follows BLOCK output.old (clocks from to) output.new }
{
    output.put(b" (");
    put_clock(output, from);
    output.put(b" to ");
    put_clock(output, to);
    output.put(b")");
}

// A settling or a reading: its word, what it is, and when.
#[tactic(auto, unfolding(crate::specs::Telling::stretch), using(streams::proofs::Following::follows_more))]
fn put_stretch(output: &mut Output<BLOCK>, word: u32, what: &[u8], from: u64, to: u64)
    ensures follows { Follows BLOCK output.old (stretch word what.now from to) output.new }
{
    output.put_digits(16, 8, word as u64);
    output.put(what);
    put_ticks(output, from, to);
    put_clocks(output, from, to);
}

// Of a move: the tick at which its reading begins, and the one at which it is over.
#[derive(Clone, Copy)]
struct Moments {
    reading: u64,
    over: u64,
}

// Those of a move that begins at tick `at`. That is never more than 2^40: two times of four bytes add less than 2^33, and there are at most 16 moves.
fn moments_of(at: u64, m: Move) -> Moments
    requires { at ≤ 1099511627776 }
    ensures reading { result.reading ≡ at + m.settling }
    ensures over { result.over ≡ at + m.settling + m.reading }
    ensures near { result.over ≤ at + 8589934592 }
{
    let reading = at + m.settling as u64;
    let over = reading + m.reading as u64;
    Moments { reading, over }
}

// The line of move k, the first being 0, which begins at tick `at`.
#[tactic(auto, unfolding(crate::specs::Telling::move_line, formats::specs::Checks::text), using(streams::proofs::Following::follows_more))]
fn put_move(output: &mut Output<BLOCK>, k: usize, at: u64, m: Move)
    requires { (k < 16) × (at ≤ 1099511627776) }
    ensures follows { Follows BLOCK output.old (move_line k at m) output.new }
{
    let e = moments_of(at, m);
    output.put(b"move ");
    output.put_digits(10, 2, k as u64 + 1);
    output.put(b": ");
    put_stretch(output, m.moveword, b" settling ", at, e.reading);
    output.put(b", ");
    put_stretch(output, m.readingword, b" reading ", e.reading, e.over);
    output.put(b"\n");
}

// The last line.
#[tactic(auto, unfolding(crate::specs::Telling::total_line, formats::specs::Checks::text), using(streams::proofs::Following::follows_more))]
fn put_total(output: &mut Output<BLOCK>, at: u64)
    ensures follows { Follows BLOCK output.old (total_line at) output.new }
{
    output.put(b"total: ");
    output.put_decimal(at);
    output.put(b" (");
    put_clock(output, at);
    output.put(b")\n");
}

// The table of a plan that is taken.
#[tactic(auto, using(crate::proofs::Table::by_moves))]
fn put_table(output: &mut Output<BLOCK>, plan: &[u32])
    requires { is_counted plan.now ≡ true }
    ensures follows { Follows BLOCK output.old (table (moves_of plan.now)) output.new }
{
    let mut at = 0;
    for k in 0..plan.len() / 4 {
        let m = planner::move_at(plan, k);
        put_move(output, k, at, m);
        at = moments_of(at, m).over;
    }
    put_total(output, at);
}

// ---- a plan

// The program of a plan that is taken, or its table; or why it is refused.
#[tactic(auto, using(crate::proofs::Answers::by_answer))]
fn put_told(output: &mut Output<BLOCK>, plan: &[u32], check: bool)
    ensures follows { Follows BLOCK output.old (told check plan.now) output.new }
{
    let mut program = [0u8; lines::PROGRAM];
    match planner::write(plan, &mut program) {
        Err(e) => output.put_error(e, b'\n'),
        Ok(()) if check => put_table(output, plan),
        Ok(()) => output.put(&program),
    }
}

// The same where nothing is gathered yet: the block has room for all of it.
#[tactic(auto, using(crate::proofs::Fits::told_whole))]
fn told_whole(rt: &HostRuntime, plan: &[u32], check: bool) -> Output<BLOCK>
    ensures open { result.open ≡ true }
    ensures whole { result.waits ≡ told check plan.now }
{
    let mut output = Output::new(rt);
    put_told(&mut output, plan, check);
    output
}

// The same for a plan that was read.
pub fn told_read(rt: &HostRuntime, reader: &Reader, check: bool) -> Output<BLOCK>
    ensures open { result.open ≡ true }
    ensures whole { result.waits ≡ told check (numbers_of reader.now) }
{
    told_whole(rt, reader.numbers.as_slice(), check)
}

// ---- a text that is no plan

// What is wrong with its line.
#[tactic(auto, unfolding(crate::specs::Telling::fault_text, formats::specs::Checks::text))]
fn words(fault: Fault) -> &'static [u8]
    ensures words { result.now ≡ fault_text fault }
{
    match fault {
        Fault::NoWord => b"the word of the move is not eight hex digits",
        Fault::NoSettling => b"the settling time is not a decimal number",
        Fault::NoReadingWord => b"the word of the reading is not eight hex digits",
        Fault::NoReading => b"the reading time is not a decimal number",
        Fault::SettlingMissing => b"the settling time is missing",
        Fault::ReadingWordMissing => b"the word of the reading is missing",
        Fault::ReadingMissing => b"the reading time is missing",
        Fault::Behind => b"something stands behind the reading time",
    }
}

// The line and its fault, and how a move is written.
#[tactic(auto, unfolding(crate::specs::Telling::fault_lines, crate::specs::Telling::move_form, formats::specs::Checks::text), using(streams::proofs::Following::follows_more))]
fn put_fault_lines(output: &mut Output<BLOCK>, line: u64, fault: Fault)
    ensures follows { Follows BLOCK output.old (fault_lines line fault) output.new }
{
    output.put(b"line ");
    output.put_decimal(line);
    output.put(b": ");
    output.put(words(fault));
    output.put(
        b"\na move is WORD SETTLING WORD READING: words of eight hex digits, times in decimal ticks\n",
    );
}

// The same where nothing is gathered yet: the block has room for all of it.
#[tactic(auto, using(crate::proofs::Fits::fault_whole))]
pub fn fault_whole(rt: &HostRuntime, line: u64, fault: Fault) -> Output<BLOCK>
    ensures whole { result.waits ≡ fault_lines line fault }
{
    let mut output = Output::new(rt);
    put_fault_lines(&mut output, line, fault);
    output
}
