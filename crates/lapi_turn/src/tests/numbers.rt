//! A list of numbers that refuses every third ask.
ghost use Rattle.std.specs.Prelude.{◌≡◌, bit_or, bit_xor, [], ⊤, IfOk};
ghost use Rattle.lapi_turn.specs.Entries.{HasRight, HasRights};
ghost use Rattle.lapi_turn.specs.Seats.{rights_of, IsSeatOf};
ghost use Rattle.lapi_turn.specs.TurnRule.{all_rights};

use crate::{Asked, Kept, Seat, Turn};
use lapi_base::Memory;
use std::alloc::Global;
use std::sync::Wait;
use std::test::Fail;
use std::thread;
use std::thread::Threads;

const ASKS: u64 = 1000;

/// The numbers that were taken, each with its right.
#[derive(Drop)]
struct Numbers {
    taken: Vec<(u64, u64)>,
    until_refusal: u64,
}

#[derive(Clone, Copy)]
struct Number {
    number: u64,
    right: u64,
}

impl Kept for Numbers {
    type Fixed = ();

    ghost list = { λ n. n.taken.items };

    ghost fixed = { λ _. tt };
}

impl Asked<Number> for Numbers {
    type Answer = bool;

    ghost entry = { λ _ q. (q.number, q.right) };

    ghost appended = { λ taken. taken };

    ghost lawful = { λ _ _ _. ⊤ };

    ghost may = { λ _ _ _ _. ⊤ };

    fn act(&mut self, _alloc: Global, ask: Number) -> (bool, bool) {
        if self.until_refusal == 0 {
            self.until_refusal = 2;
            return (false, false);
        }
        self.until_refusal -= 1;
        let taken = self.taken.push((ask.number, ask.right)).is_ok();
        (taken, taken)
    }
}

/// A seat, and which of the numbers that it asked for were taken.
type Asker = (Seat<Numbers>, Vec<u64>);

// Asks for the numbers below 1,000, each once.
fn ask_all<R: Wait>(
    rt: &R,
    alloc: Global,
    turn: &Turn<Numbers>,
    seat: Seat<Numbers>,
    right: u64,
) -> Result<Asker, Memory>
    requires seat { IsSeatOf (λ _. tt) turn.now seat }
    requires right { HasRight (rights_of seat) right }
    ensures seat { IfOk result (λ a. IsSeatOf (λ _. tt) turn.now a.0) }
    ensures rights { IfOk result (λ a. rights_of a.0 ≡ rights_of seat) }
{
    let mut seat = seat;
    let mut taken = Vec::new(alloc);
    for number in 0..ASKS {
        if turn.with(rt, alloc, &mut seat, Number { number, right }) {
            taken.push(number)?;
        }
    }
    Ok((seat, taken))
}

// Hands the rights of the mask over to a new seat, and lets both seats ask on threads of their own.
fn ask_in_two<R: Threads + Wait + Sync>(
    rt: &R,
    alloc: Global,
    turn: &Turn<Numbers>,
    seat: Seat<Numbers>,
    mask: u32,
    rights: (u64, u64),
) -> Result<(Asker, Vec<u64>), Memory>
    requires seat { IsSeatOf (λ _. tt) turn.now seat }
    requires mask { HasRights (rights_of seat) mask }
    requires first { HasRight (bit_xor (rights_of seat) mask) rights.0 }
    requires second { HasRight mask rights.1 }
    ensures seat { IfOk result (λ a. IsSeatOf (λ _. tt) turn.now a.0.0) }
    ensures rights { IfOk result (λ a. rights_of a.0.0 ≡ bit_or (bit_xor (rights_of seat) mask) mask) }
{
    let mut seat = seat;
    let other = turn.split(&mut seat, mask);
    let (first, second) = thread::join(
        rt,
        move || ask_all(rt, alloc, turn, seat, rights.0),
        move || ask_all(rt, alloc, turn, other, rights.1),
    );
    let (seat, taken) = first?;
    let (other, others) = second?;
    Ok(((turn.join(seat, other), taken), others))
}

fn entries_of(alloc: Global, value: &Numbers, right: u64) -> Result<Vec<u64>, Memory> {
    let mut numbers = Vec::new(alloc);
    for (number, its_right) in &value.taken {
        if *its_right == right {
            numbers.push(*number)?;
        }
    }
    Ok(numbers)
}

fn no_numbers(alloc: Global) -> Numbers
    ensures { result.taken.items ≡ [] }
{
    Numbers {
        taken: Vec::new(alloc),
        until_refusal: 2,
    }
}

// Hands rights 2 and 3 over to a new seat, and lets each seat ask on two threads.
fn ask_in_four<R: Threads + Wait + Sync>(
    rt: &R,
    alloc: Global,
    turn: &Turn<Numbers>,
    seat: Seat<Numbers>,
) -> Result<(Seat<Numbers>, [Vec<u64>; 4]), Memory>
    requires seat { IsSeatOf (λ _. tt) turn.now seat }
    requires rights { rights_of seat ≡ all_rights }
    ensures seat { IfOk result (λ a. IsSeatOf (λ _. tt) turn.now a.0) }
    ensures rights { IfOk result (λ a. rights_of a.0 ≡ all_rights) }
{
    let mut seat = seat;
    let other = turn.split(&mut seat, 12);
    let (low, high) = thread::join(
        rt,
        move || -> Result<(Asker, Vec<u64>), Memory>
            requires { IsSeatOf (λ _. tt) turn.now seat × (rights_of seat ≡ 65523) }
            ensures { IfOk result (λ a. IsSeatOf (λ _. tt) turn.entry.now a.0.0 × (rights_of a.0.0 ≡ 65523)) }
        { ask_in_two(rt, alloc, turn, seat, 2, (0, 1)) },
        move || -> Result<(Asker, Vec<u64>), Memory>
            requires { IsSeatOf (λ _. tt) turn.now other × (rights_of other ≡ 12) }
            ensures { IfOk result (λ a. IsSeatOf (λ _. tt) turn.entry.now a.0.0 × (rights_of a.0.0 ≡ 12)) }
        { ask_in_two(rt, alloc, turn, other, 8, (2, 3)) },
    );
    let ((seat, zero), one) = low?;
    let ((other, two), three) = high?;
    Ok((turn.join(seat, other), [zero, one, two, three]))
}

#[test]
fn two_threads(rt: HostRuntime) -> Result<(), Fail> {
    let alloc = rt.alloc();
    let (turn, seat) = Turn::new(alloc, no_numbers(alloc))?;
    let ((seat, first), second) = ask_in_two(&rt, alloc, &turn, seat, 2, (0, 1))?;
    let value = turn.close(seat);
    assert_eq!(rt; entries_of(alloc, &value, 0)?, first);
    assert_eq!(rt; entries_of(alloc, &value, 1)?, second);
    // Of 2,000 asks each third one was refused.
    assert_eq!(rt; value.taken.len(), 1334);
    assert_eq!(rt; first.len().saturating_add(second.len()), 1334);
    Ok(())
}

#[test]
fn four_threads(rt: HostRuntime) -> Result<(), Fail> {
    let alloc = rt.alloc();
    let (turn, seat) = Turn::new(alloc, no_numbers(alloc))?;
    let (seat, [zero, one, two, three]) = ask_in_four(&rt, alloc, &turn, seat)?;
    let value = turn.close(seat);
    assert_eq!(rt; entries_of(alloc, &value, 0)?, zero);
    assert_eq!(rt; entries_of(alloc, &value, 1)?, one);
    assert_eq!(rt; entries_of(alloc, &value, 2)?, two);
    assert_eq!(rt; entries_of(alloc, &value, 3)?, three);
    // Of 4,000 asks each third one was refused.
    assert_eq!(rt; value.taken.len(), 2667);
    let lens = [zero.len(), one.len(), two.len(), three.len()];
    assert_eq!(rt;
        lens.iter().fold(0usize, |sum, n| sum.saturating_add(*n)),
        2667
    );
    Ok(())
}
