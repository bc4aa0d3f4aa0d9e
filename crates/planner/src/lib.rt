// An inclining plan as the program that carries it out: 02, item 10.
// Definitions: specs/Plan.antt for what the plan asks for, specs/Lines.antt for the program, specs/Planned.antt for the refusals.
#![tactic(auto)]

ghost use Rattle.std.specs.Prelude.{◌≡◌, true, [], ◌∷◌, ◌+◌, ◌*◌, ◌-◌, ◌≤◌, ◌<◌, length, replicate};
ghost use Rattle.formats.specs.Checks.{all};
ghost use Rattle.formats.specs.Numbers.{res_of};
ghost use Rattle.lines.specs.declared.Line.TheVariants.{State};
ghost use Rattle.lines.specs.Line.{end_mark};
ghost use Rattle.lines.specs.Program.{IsProgram};
ghost use Rattle.planner.specs.Plan.{move_at, moves_of, is_time, is_timed, InRange, Timed};
ghost use Rattle.planner.specs.Lines.{loop_lines, lines_for, move_lines, plan_lines, Lays};
ghost use Rattle.planner.specs.Laid.{LaysOn};
ghost use Rattle.planner.specs.Planned.{is_counted, planned, answered, area_of};
ghost use Rattle.planner.specs.Refusals.{number_of as number_of_refusal, distinct as distinct_refusals};

use formats::Numbered;
use lines::Line;

// A weight move: the word of the outputs while the ship settles, for how many ticks, the word for the reading, for how many ticks.
#[derive(Clone, Copy)]
pub struct Move {
    pub moveword: u32,
    pub settling: u32,
    pub readingword: u32,
    pub reading: u32,
}

// Why the program of a plan is not written.
#[derive(Clone, Copy, Debug, PartialEq, Eq)]
pub enum Refusal {
    // an area not of 1,600 bytes
    NotProgram = 30,
    // no moves or too many, or a part of one
    NotMoves = 70,
    // a time outside its range
    NotTime = 71,
}

impl Numbered for Refusal {
    ghost number_of = { number_of_refusal };

    fn number(self) -> u8 {
        self as u8
    }

    ghost distinct = { distinct_refusals };
}

// The most moves of a plan.
pub const MOST_MOVES: usize = 16;

// The longest time of a settling or a reading, in ticks.
pub const MOST_TIME: u32 = 600000;

// The longest time of a State line.
const LONGEST: u32 = 9999;

// ---- which plans are taken

// Whether the numbers are 1 to 16 moves, and no part of one.
fn is_counted(plan: &[u32]) -> bool
    ensures test { result ≡ is_counted plan.now }
{
    let moves = plan.len() / 4;
    4 * moves == plan.len() && 1 <= moves && moves <= MOST_MOVES
}

// Move k of the plan.
// Kept: a plan is numbers, as C lends it (nizhalepu_plan); with chunks_exact(4) these four indices would stand here and in each loop.
pub fn move_at(plan: &[u32], k: usize) -> Move
    requires { (k < 16) × (4 * k + 4 ≤ length plan.now) }
    ensures numbers { result ≡ move_at plan.now k }
{
    Move {
        moveword: plan[4 * k],
        settling: plan[4 * k + 1],
        readingword: plan[4 * k + 2],
        reading: plan[4 * k + 3],
    }
}

// Whether a time is in its range.
fn is_time(t: u32) -> bool
    ensures test { result ≡ is_time t }
{
    1 <= t && t <= MOST_TIME
}

// Whether both times of a move are in their range.
fn is_timed(m: Move) -> bool
    ensures test { result ≡ is_timed m }
{
    is_time(m.settling) && is_time(m.reading)
}

// Whether all times are in their range.
fn are_timed(plan: &[u32]) -> bool
    requires { is_counted plan.now ≡ true }
    ensures test { result ≡ all is_timed (moves_of plan.now) }
{
    for k in 0..plan.len() / 4 {
        if !is_timed(move_at(plan, k)) {
            return false;
        }
    }
    true
}

// ---- lines

// A program whose lines are written one behind the other: the line that comes next.
#[derive(Drop)]
struct Writer<'a> {
    program: &'a mut [u8],
    at: usize,
}

impl<'a> Writer<'a> {
    // A State line.
    fn state(&mut self, word: u32, time: u32)
        requires { IsProgram self.old.program.now × (self.old.at < 200) × (time ≤ 9999) }
        ensures same_reference { self.new.program.ghost_name ≡ self.old.program.ghost_name }
        ensures lays { LaysOn (State word time ∷ []) self.old self.new }
        ensures near { self.new.at ≡ self.old.at + 1 }
    {
        let state = Line::State {
            outputs: word,
            time: time as u16,
        };
        lines::put_line(self.program, self.at, state);
        self.at += 1;
    }

    // A loop of a State of the longest time, with so many turns.
    fn looped(&mut self, word: u32, turns: u32)
        requires { IsProgram self.old.program.now × (self.old.at ≤ 197) × (turns ≤ 9999) }
        ensures same_reference { self.new.program.ghost_name ≡ self.old.program.ghost_name }
        ensures lays { LaysOn (loop_lines word turns) self.old self.new }
        ensures near { self.new.at ≡ self.old.at + 3 }
    {
        let begin = Line::For {
            counter: 1,
            count: turns as u16,
        };
        lines::put_line(self.program, self.at, begin);
        self.at += 1;
        self.state(word, LONGEST);
        lines::put_line(self.program, self.at, Line::Next { counter: 1 });
        self.at += 1;
    }

    // The lines that have the outputs stand at a word for some ticks.
    fn stretch(&mut self, word: u32, time: u32)
        requires { IsProgram self.old.program.now × (self.old.at ≤ 196) × InRange time }
        ensures same_reference { self.new.program.ghost_name ≡ self.old.program.ghost_name }
        ensures lays { LaysOn (lines_for word time) self.old self.new }
        ensures near { self.new.at ≤ self.old.at + 4 }
    {
        if time <= LONGEST {
            self.state(word, time);
            return;
        }
        self.looped(word, time / LONGEST);
        let rest = time % LONGEST;
        if rest != 0 {
            self.state(word, rest);
        }
    }

    // The lines of a move.
    fn move_of(&mut self, m: Move)
        requires { IsProgram self.old.program.now × (self.old.at ≤ 192) × Timed m }
        ensures same_reference { self.new.program.ghost_name ≡ self.old.program.ghost_name }
        ensures lays { LaysOn (move_lines m) self.old self.new }
        ensures near { self.new.at ≤ self.old.at + 8 }
    {
        self.stretch(m.moveword, m.settling);
        self.stretch(m.readingword, m.reading);
    }
}
// The lines of all moves, from line 000 on. The number of the line behind them is returned.
fn put_moves(program: &mut [u8], plan: &[u32]) -> usize
    requires { IsProgram program.old × (is_counted plan.now ≡ true) × (all is_timed (moves_of plan.now) ≡ true) }
    ensures lays { Lays 0 (plan_lines (moves_of plan.now)) program.old result program.new }
    ensures near { result ≤ 128 }
{
    let mut writer = Writer { program, at: 0 };
    for k in 0..plan.len() / 4 {
        writer.move_of(move_at(plan, k));
    }
    writer.at
}

// End marks with all outputs off, from line `at` to the last.
fn put_ends(program: &mut [u8], at: usize)
    requires { IsProgram program.old × (at ≤ 200) }
    ensures lays { Lays at (replicate (200 - at) end_mark) program.old 200 program.new }
{
    for i in at..200 {
        lines::put_line(program, i, lines::end_mark());
    }
}

// ---- the plan

// The program of a plan is written, or nothing and the plan is refused, whatever the numbers and the area are, and however many.
pub fn write(plan: &[u32], program: &mut [u8]) -> Result<(), Refusal>
    ensures answer { res_of number_of_refusal result ≡ answered (planned plan.now program.old) }
    ensures area { program.new ≡ area_of (planned plan.now program.old) program.old }
{
    if program.len() != lines::PROGRAM {
        return Err(Refusal::NotProgram);
    }
    if !is_counted(plan) {
        return Err(Refusal::NotMoves);
    }
    if !are_timed(plan) {
        return Err(Refusal::NotTime);
    }
    let at = put_moves(program, plan);
    put_ends(program, at);
    Ok(())
}
