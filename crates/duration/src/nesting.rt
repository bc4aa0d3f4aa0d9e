// Whether the loops of a program before its end are tangled. Definitions: specs/Loops.antt, and specs/Walk.antt for the walk.
ghost use Rattle.std.specs.Prelude.{◌≡◌, ◌≤◌, ◌<◌};
ghost use Rattle.lines.specs.declared.Line.TheVariants.{For, Next};
ghost use Rattle.lines.specs.Program.{IsProgram, line_at, next_after};
ghost use Rattle.lines.specs.Loops.{next_of};
ghost use Rattle.duration.specs.Walk.{is_across, is_across_one, walked_line, walked};

use lines::Line;

// The line of the Next of the last For of each counter.
pub type Nexts = [Option<u8>; 4];

// Line i is inside a loop with the Next o, and that Next is not behind line n.
fn is_across(i: u8, n: u8, o: Option<u8>) -> bool
    ensures test { result ≡ is_across i n o }
{
    matches!(o, Some(o) if i < o && o <= n)
}

// Line i is inside an open loop whose Next is not behind line n.
pub fn is_across_one(i: u8, n: u8, nexts: Nexts) -> bool
    ensures test { result ≡ is_across_one i n nexts }
{
    nexts.iter().any(|&o| is_across(i, n, o))
}

// A For on line i has a Next, and ends inside every loop in which it begins.
fn walk_for(p: &[u8], i: u8, counter: u8, mut nexts: Nexts) -> Option<Nexts>
    requires { IsProgram p.now × (i < 200) × (1 ≤ counter) × (counter ≤ 4) }
    ensures walk { result ≡ walked_line (For counter 0) i (next_after p.now counter i) nexts }
{
    let n = lines::next_after(p, counter, i)?;
    if is_across_one(i, n, nexts) {
        return None;
    }
    nexts[(counter - 1) as usize] = Some(n);
    Some(nexts)
}

// A Next on line i is that of the last For of its counter.
fn walk_next(i: u8, counter: u8, nexts: Nexts) -> Option<Nexts>
    requires { (1 ≤ counter) × (counter ≤ 4) }
    ensures walk { result ≡ walked_line (Next counter) i 0 nexts }
{
    if nexts[(counter - 1) as usize] == Some(i) {
        Some(nexts)
    } else {
        None
    }
}

// Line i, whatever it is.
#[tactic(auto, using(lines::proofs::Pairs::counter_ranged, lines::proofs::Pairs::next_ranged, lines::proofs::Pairs::next_of_lem))]
fn walk_line(p: &[u8], i: u8, nexts: Nexts) -> Option<Nexts>
    requires { IsProgram p.now × (i < 200) }
    ensures walk { result ≡ walked_line (line_at p.now i) i (next_of p.now i) nexts }
{
    match lines::line_at(p, i as usize) {
        Line::For { counter, count: _ } => walk_for(p, i, counter, nexts),
        Line::Next { counter } => walk_next(i, counter, nexts),
        Line::State { .. } | Line::Bad => Some(nexts),
    }
}

// The lines before line e, to the first that makes a tangle.
pub fn walked(p: &[u8], e: u8) -> Option<Nexts>
    requires { IsProgram p.now × (e ≤ 200) }
    ensures walk { result ≡ walked p.now e }
{
    let mut nexts = [None; 4];
    for i in 0..e {
        nexts = walk_line(p, i, nexts)?;
    }
    Some(nexts)
}
