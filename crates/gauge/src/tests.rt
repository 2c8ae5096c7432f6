// Each gauge and layer at the edges of its range.
ghost use Rattle.std.specs.Prelude.{min, max};
ghost use Rattle.std.proofs.Common.{rules};

use crate::*;
use std::process::Abort;
use std::test::Fail;

const TOP: u64 = u64::MAX;

// A gauge of the tests' own: reads 1 once an amount other than 0 was posted.
#[derive(Clone, Copy)]
struct Seen;

impl Plain for Seen {
    ghost operation = { max };

    ghost reading = { λ t. min t 1 };

    ghost keeps_laws = { Prim.search rules };

    fn combine(&self, first: u64, second: u64) -> u64 {
        first.max(second)
    }

    fn reading(&self, total: u64) -> u64 {
        total.min(1)
    }
}

// The same gauge by the trait of all gauges: what a caller writes whose gauge is no plain one.
#[derive(Clone, Copy)]
struct Posted;

impl Gauge for Posted {
    ghost meaning = { λ _. record { start = λ c. 0; add = λ c t a. max t a; read = λ c t. min t 1; join = λ c a b. max a b } };

    ghost lawful = { Prim.search rules };

    fn start(&self, _clock: u8) -> u64 {
        0
    }

    fn add(&self, _clock: u8, total: u64, amount: u64) -> u64 {
        total.max(amount)
    }

    fn read(&self, _clock: u8, total: u64) -> u64 {
        total.min(1)
    }

    fn join(&self, _clock: u8, first: u64, second: u64) -> u64 {
        first.max(second)
    }
}

// On clocks 0 and 255, each row's two numbers add and join to the third, which reads the fourth.
fn adds<G: Gauge>(rt: &impl Abort, gauge: &G, rows: &[(u64, u64, u64, u64)]) {
    for clock in [0, 255] {
        assert_eq!(rt; gauge.start(clock), 0);
        for row in rows {
            assert_eq!(rt; gauge.add(clock, row.0, row.1), row.2);
            assert_eq!(rt; gauge.join(clock, row.0, row.1), row.2);
            assert_eq!(rt; gauge.read(clock, row.2), row.3);
        }
    }
}

#[test]
fn plain_gauges_at_their_edges(rt: HostRuntime) {
    adds(
        &rt,
        &Sum,
        &[
            (0, 0, 0, 0),
            (2, 3, 5, 5),
            (TOP - 1, 1, TOP, TOP),
            (TOP, 1, TOP, TOP),
            (TOP, TOP, TOP, TOP),
        ],
    );
    adds(
        &rt,
        &Peak,
        &[
            (0, 0, 0, 0),
            (7, 0, 7, 7),
            (0, 7, 7, 7),
            (7, 7, 7, 7),
            (6, TOP, TOP, TOP),
        ],
    );
    adds(
        &rt,
        &Channels,
        &[
            (0, 0, 0, 0),
            (5, 6, 7, 3),
            (TOP, 1, TOP, 64),
            (1 << 63, 1, (1 << 63) + 1, 2),
            (0, TOP, TOP, 64),
        ],
    );
    let seen = [(0, 0, 0, 0), (0, 9, 9, 1), (TOP, 0, TOP, 1)];
    adds(&rt, &Seen, &seen);
    adds(&rt, &Posted, &seen);
}

#[test]
fn a_border_sends_each_clock_to_one_side(rt: HostRuntime) -> Result<(), Fail> {
    let mut gauge = Split::new(Sum, Split::new(Peak, Channels));
    for (border, clock, expected) in [
        (4, 0, 7),
        (4, 3, 7),
        (4, 4, 4),
        (4, 7, 4),
        (4, 8, 3),
        (4, 255, 3),
        (0, 0, 4),
        (0, 4, 3),
        (8, 7, 7),
        (8, 8, 4),
        (8, 12, 3),
    ] {
        gauge.set_border(border)?;
        assert_eq!(rt; gauge.border(), border);
        assert_eq!(rt;
            gauge.read(
                clock,
                post_all(&gauge, clock, gauge.start(clock), &[1, 2, 4]),
            ),
            expected
        );
    }
    for refused in [9, 255] {
        assert_eq!(rt;
            gauge.set_border(refused),
            Err(LayerFault::BorderTooHigh(refused))
        );
        assert_eq!(rt; gauge.border(), 8);
    }
    assert_eq!(rt; gauge.first().add(0, 2, 3), 5);
    assert_eq!(rt; gauge.second().border(), 4);
    Ok(())
}

#[test]
fn a_divisor_divides_the_reading_alone(rt: HostRuntime) -> Result<(), Fail> {
    let mut gauge = Coarse::new(Sum);
    for (divisor, expected) in [(1, TOP), (2, TOP / 2), (1_000_000, 18_446_744_073_709)] {
        gauge.set_divisor(divisor)?;
        assert_eq!(rt; gauge.divisor(), divisor);
        assert_eq!(rt; gauge.read(0, TOP), expected);
        assert_eq!(rt; gauge.add(0, 2, 3), gauge.inner().add(0, 2, 3));
    }
    for refused in [0, 1_000_001, TOP] {
        assert_eq!(rt;
            gauge.set_divisor(refused),
            Err(LayerFault::DivisorOutOfRange(refused))
        );
        assert_eq!(rt; gauge.divisor(), 1_000_000);
    }
    assert_eq!(rt; LayerFault::DivisorOutOfRange(TOP).number(), 12);
    assert_eq!(rt; LayerFault::DivisorOutOfRange(TOP).value(), TOP);
    assert_eq!(rt; LayerFault::BorderTooHigh(9).number(), 13);
    assert_eq!(rt; LayerFault::BorderTooHigh(9).value(), 9);
    Ok(())
}

#[test]
fn a_fault_prints_its_value_and_the_limit(rt: HostRuntime) -> Result<(), Fail> {
    for (fault, text) in [
        (
            LayerFault::DivisorOutOfRange(TOP),
            "divisor 18446744073709551615 is not from 1 to 1,000,000",
        ),
        (LayerFault::BorderTooHigh(9), "border 9 is above 8"),
    ] {
        assert_eq!(rt; format!(in rt.alloc(); "{fault}")?.as_str(), text);
    }
    Ok(())
}

#[test]
fn three_layers_run(rt: HostRuntime) {
    let amounts = [100, 200, 400];
    for (divisor, clock, expected) in [
        (1, 0, 700),
        (100, 3, 7),
        (1, 4, 400),
        (3, 5, 133),
        (1, 6, 7),
        (2, 7, 3),
        (5, 255, 1),
        (1_000_000, 0, 0),
    ] {
        assert_eq!(rt; rack_reading(divisor, clock, &amounts), Ok(expected));
    }
    assert_eq!(rt;
        rack_reading(0, 0, &amounts),
        Err(LayerFault::DivisorOutOfRange(0))
    );
}

#[test]
fn joined_amounts_post_the_same(rt: HostRuntime) {
    let gauge = rack();
    for clock in [0, 3, 4, 5, 6, 255] {
        let whole = join_all(&gauge, clock, 9, &[3, TOP, 20]);
        assert_eq!(rt;
            gauge.add(clock, 5, whole),
            post_all(&gauge, clock, 5, &[9, 3, TOP, 20])
        );
    }
    assert_eq!(rt; post_all(&gauge, 0, 5, &[]), 5);
    assert_eq!(rt; join_all(&gauge, 0, 9, &[]), 9);
}
