//! A world of lines, whose asks bring stored closures.
ghost use Rattle.std.specs.Prelude.{◌≡◌, ◌<◌, ℕ, bit_or, bit_xor, [], IfOk, is_ok};
ghost use Rattle.lapi_turn.specs.Entries.{HasRight};
ghost use Rattle.lapi_turn.specs.Seats.{fixed_of, rights_of, IsSeatOf};
ghost use Rattle.lapi_turn.specs.TurnRule.{all_rights};

use crate::{Asked, Kept, Seat, Turn};
use lapi_base::Memory;
use std::alloc::Global;
use std::sync::Wait;
use std::test::Fail;
use std::thread;
use std::thread::Threads;

const LINES: u32 = 1000;

type Effect = Box<dyn Fn(u64) -> u64 + Send + Sync>;

/// What a line adds to the sum of its lane: one closure for the lines of lane 0, one for the others.
#[derive(Drop)]
struct Handlers {
    first: Effect,
    other: Effect,
    ghost first_callable: { Effect.IsAlwaysCallable first },
    ghost other_callable: { Effect.IsAlwaysCallable other },
}

/// The schedule's length, the lines that were taken with their lanes, and the sums of two lanes.
#[derive(Drop)]
struct World {
    lines: u32,
    taken: Vec<(u64, u64)>,
    sums: (u64, u64),
}

#[derive(Clone, Copy)]
struct Line<'h> {
    line: u32,
    lane: u32,
    handlers: &'h Handlers,
}

impl Kept for World {
    type Fixed = u32;

    ghost list = { λ w. w.taken.items };

    ghost fixed = { λ w. w.lines };
}

impl<'h> Asked<Line<'h>> for World {
    type Answer = Result<u64, Memory>;

    ghost entry = { λ _ q. (q.line, q.lane) };

    ghost appended = { λ reply. is_ok reply };

    ghost lawful = { λ lines _ q. q.line < lines };

    ghost may = { λ lines _ q reply. IfOk reply (λ _. q.line < lines) };

    fn act(&mut self, _alloc: Global, ask: Line<'h>) -> (Result<u64, Memory>, bool) {
        if self.taken.push((ask.line.into(), ask.lane.into())).is_err() {
            return (Err(Memory), false);
        }
        let sum = if ask.lane == 0 {
            let sum = self
                .sums
                .0
                .wrapping_add((ask.handlers.first)(ask.line.into()));
            self.sums.0 = sum;
            sum
        } else {
            let sum = self
                .sums
                .1
                .wrapping_add((ask.handlers.other)(ask.line.into()));
            self.sums.1 = sum;
            sum
        };
        (Ok(sum), true)
    }
}

// Takes each line in this lane. The last sum of the lane.
fn run_lane<R: Wait>(
    rt: &R,
    alloc: Global,
    turn: &Turn<World>,
    handlers: &Handlers,
    seat: Seat<World>,
    lane: u32,
) -> Result<(Seat<World>, u64), Memory>
    requires seat { IsSeatOf (λ w. w.lines) turn.now seat }
    requires lines { fixed_of (λ w. w.lines) turn.now ≡ LINES }
    requires right { HasRight (rights_of seat) lane }
    ensures seat { IfOk result (λ a. IsSeatOf (λ w. w.lines) turn.now a.0) }
    ensures rights { IfOk result (λ a. rights_of a.0 ≡ rights_of seat) }
{
    let mut seat = seat;
    let mut sum = 0;
    for line in 0..LINES {
        sum = turn.with(
            rt,
            alloc,
            &mut seat,
            Line {
                line,
                lane,
                handlers,
            },
        )?;
    }
    Ok((seat, sum))
}

// Takes the lines of lanes 0 and 1 on two threads. The last sums.
fn run_two<R: Threads + Wait + Sync>(
    rt: &R,
    alloc: Global,
    turn: &Turn<World>,
    handlers: &Handlers,
    seat: Seat<World>,
) -> Result<(Seat<World>, u64, u64), Memory>
    requires seat { IsSeatOf (λ w. w.lines) turn.now seat }
    requires lines { fixed_of (λ w. w.lines) turn.now ≡ LINES }
    requires rights { rights_of seat ≡ all_rights }
    ensures seat { IfOk result (λ a. IsSeatOf (λ w. w.lines) turn.now a.0) }
    ensures rights { IfOk result (λ a. rights_of a.0 ≡ all_rights) }
{
    let mut seat = seat;
    let other = turn.split(&mut seat, 2);
    let (first, second) = thread::join(
        rt,
        move || -> Result<(Seat<World>, u64), Memory>
            requires { IsSeatOf (λ w. w.lines) turn.now seat × (fixed_of (λ w. w.lines) turn.now ≡ LINES) × (rights_of seat ≡ 65533) }
            ensures { IfOk result (λ a. IsSeatOf (λ w. w.lines) turn.entry.now a.0 × (rights_of a.0 ≡ 65533)) }
        { run_lane(rt, alloc, turn, handlers, seat, 0) },
        move || -> Result<(Seat<World>, u64), Memory>
            requires { IsSeatOf (λ w. w.lines) turn.now other × (fixed_of (λ w. w.lines) turn.now ≡ LINES) × (rights_of other ≡ 2) }
            ensures { IfOk result (λ a. IsSeatOf (λ w. w.lines) turn.entry.now a.0 × (rights_of a.0 ≡ 2)) }
        { run_lane(rt, alloc, turn, handlers, other, 1) },
    );
    let (seat, zero) = first?;
    let (other, one) = second?;
    Ok((turn.join(seat, other), zero, one))
}

#[test]
fn closures_come_with_the_ask(rt: HostRuntime) -> Result<(), Fail> {
    let alloc = rt.alloc();
    let first: Effect = Box::new(alloc, |n| n)?;
    let other: Effect = Box::new(alloc, |n| n / 2)?;
    let handlers = Handlers { first, other };
    let world = World {
        lines: LINES,
        taken: Vec::new(alloc),
        sums: (0, 0),
    };
    let (turn, seat) = Turn::new(alloc, world)?;
    let (seat, zero, one) = run_two(&rt, alloc, &turn, &handlers, seat)?;
    let world = turn.close(seat);
    assert_eq!(rt; zero, 499_500);
    assert_eq!(rt; one, 249_500);
    assert_eq!(rt; world.sums, (499_500, 249_500));
    assert_eq!(rt; world.lines, 1000);
    for lane in 0..2 {
        let mut next = 0u64;
        for (line, its_lane) in &world.taken {
            if *its_lane == lane {
                assert_eq!(rt; *line, next);
                next = next.wrapping_add(1);
            }
        }
        assert_eq!(rt; next, 1000, "lane {lane}");
    }
    assert_eq!(rt; world.taken.len(), 2000);
    Ok(())
}
