//! The gates by name.
ghost use Rattle.std.specs.Prelude.{◌≡◌, ◌<◌, map, IfSome};
ghost use Rattle.aq_prog.specs.Gates.{IsEntry, AreEntries};
ghost use Rattle.aq_prog.specs.Table.{
  gate_among,
  seen,
  fixed_gates,
  phase_gates,
  rotation_gates,
  entry_turned,
  rest_by,
  rotation_named,
  rows_named,
};

use crate::gate::Entry;

/// A gate's number of controls, and its matrix row by row.
#[derive(Clone, Copy, Debug, PartialEq, Eq)]
pub struct Rows {
    pub controls: u32,
    pub rows: [[Entry; 2]; 2],
}

#[derive(Clone, Copy)]
struct Named {
    name: &'static [u8],
    gate: Rows,
}

// `ROOT_j` is `w^j / sqrt(2)`, and `TURN_j` is `w^j`.
const ZERO: Entry = Entry::Zero;

const ROOT_0: Entry = Entry::Unit { turn: 0, roots: 1 };

const ROOT_1: Entry = Entry::Unit { turn: 1, roots: 1 };

const ROOT_4: Entry = Entry::Unit { turn: 4, roots: 1 };

const ROOT_7: Entry = Entry::Unit { turn: 7, roots: 1 };

const TURN_0: Entry = Entry::Unit { turn: 0, roots: 0 };

const TURN_1: Entry = Entry::Unit { turn: 1, roots: 0 };

const TURN_2: Entry = Entry::Unit { turn: 2, roots: 0 };

const TURN_4: Entry = Entry::Unit { turn: 4, roots: 0 };

const TURN_6: Entry = Entry::Unit { turn: 6, roots: 0 };

const TURN_7: Entry = Entry::Unit { turn: 7, roots: 0 };

// By the number of eighths of a turn.
const COSINES: [Entry; 8] = [TURN_0, ROOT_0, ZERO, ROOT_4, TURN_4, ROOT_4, ZERO, ROOT_0];

const SINES: [Entry; 8] = [ZERO, ROOT_0, TURN_0, ROOT_0, ZERO, ROOT_4, TURN_4, ROOT_4];

const FIXED: [Named; 16] = [
    Named {
        name: b"id",
        gate: Rows {
            controls: 0,
            rows: [[TURN_0, ZERO], [ZERO, TURN_0]],
        },
    },
    Named {
        name: b"x",
        gate: Rows {
            controls: 0,
            rows: [[ZERO, TURN_0], [TURN_0, ZERO]],
        },
    },
    Named {
        name: b"cx",
        gate: Rows {
            controls: 1,
            rows: [[ZERO, TURN_0], [TURN_0, ZERO]],
        },
    },
    Named {
        name: b"CX",
        gate: Rows {
            controls: 1,
            rows: [[ZERO, TURN_0], [TURN_0, ZERO]],
        },
    },
    Named {
        name: b"ccx",
        gate: Rows {
            controls: 2,
            rows: [[ZERO, TURN_0], [TURN_0, ZERO]],
        },
    },
    Named {
        name: b"y",
        gate: Rows {
            controls: 0,
            rows: [[ZERO, TURN_6], [TURN_2, ZERO]],
        },
    },
    Named {
        name: b"cy",
        gate: Rows {
            controls: 1,
            rows: [[ZERO, TURN_6], [TURN_2, ZERO]],
        },
    },
    Named {
        name: b"z",
        gate: Rows {
            controls: 0,
            rows: [[TURN_0, ZERO], [ZERO, TURN_4]],
        },
    },
    Named {
        name: b"cz",
        gate: Rows {
            controls: 1,
            rows: [[TURN_0, ZERO], [ZERO, TURN_4]],
        },
    },
    Named {
        name: b"h",
        gate: Rows {
            controls: 0,
            rows: [[ROOT_0, ROOT_0], [ROOT_0, ROOT_4]],
        },
    },
    Named {
        name: b"ch",
        gate: Rows {
            controls: 1,
            rows: [[ROOT_0, ROOT_0], [ROOT_0, ROOT_4]],
        },
    },
    Named {
        name: b"s",
        gate: Rows {
            controls: 0,
            rows: [[TURN_0, ZERO], [ZERO, TURN_2]],
        },
    },
    Named {
        name: b"sdg",
        gate: Rows {
            controls: 0,
            rows: [[TURN_0, ZERO], [ZERO, TURN_6]],
        },
    },
    Named {
        name: b"t",
        gate: Rows {
            controls: 0,
            rows: [[TURN_0, ZERO], [ZERO, TURN_1]],
        },
    },
    Named {
        name: b"tdg",
        gate: Rows {
            controls: 0,
            rows: [[TURN_0, ZERO], [ZERO, TURN_7]],
        },
    },
    Named {
        name: b"sx",
        gate: Rows {
            controls: 0,
            rows: [[ROOT_1, ROOT_7], [ROOT_7, ROOT_1]],
        },
    },
];

/// The gate of the first entry with the name.
fn find(table: &[Named], name: &[u8]) -> Option<Rows>
    ensures { result ≡ gate_among (map seen table.now) name.now }
{
    for named in table {
        if named.name == name {
            return Some(named.gate);
        }
    }
    None
}

/// The gates of an angle of `turn * pi/4`.
fn phases(turn: u8) -> [Named; 2]
    ensures { map seen result ≡ phase_gates turn }
{
    let rows = [[TURN_0, ZERO], [ZERO, Entry::Unit { turn, roots: 0 }]];
    [
        Named {
            name: b"p",
            gate: Rows { controls: 0, rows },
        },
        Named {
            name: b"cp",
            gate: Rows { controls: 1, rows },
        },
    ]
}

/// The entry times `w^by`.
fn turned(entry: Entry, by: u8) -> Entry
    requires entry { IsEntry entry }
    requires by { by < 8 }
    ensures { result ≡ entry_turned by entry }
{
    match entry {
        Entry::Zero => Entry::Zero,
        Entry::Unit { turn, roots } => Entry::Unit {
            turn: (turn + by) % 8,
            roots,
        },
    }
}

/// The rotations by an angle of `half * pi/2`.
fn rotations(half: u8) -> [Named; 3]
    requires { half < 8 }
    ensures { map seen result ≡ rotation_gates half }
{
    let cosine = COSINES[half as usize];
    let sine = SINES[half as usize];
    let back = Entry::Unit {
        turn: (8 - half) % 8,
        roots: 0,
    };
    let forth = Entry::Unit {
        turn: half,
        roots: 0,
    };
    [
        Named {
            name: b"rz",
            gate: Rows {
                controls: 0,
                rows: [[back, ZERO], [ZERO, forth]],
            },
        },
        Named {
            name: b"rx",
            gate: Rows {
                controls: 0,
                rows: [[cosine, turned(sine, 6)], [turned(sine, 6), cosine]],
            },
        },
        Named {
            name: b"ry",
            gate: Rows {
                controls: 0,
                rows: [[cosine, turned(sine, 4)], [sine, cosine]],
            },
        },
    ]
}

/// The gate with this name, for an angle of `eighths * pi/4`. None exactly where the name isn't in the table, or where
/// it is that of a rotation and the number of eighths is odd.
#[tactic(auto, using(crate::proofs::TableLaws::named_entries))]
pub fn gate_named(name: &[u8], eighths: i64) -> Option<Rows>
    ensures table { result ≡ rows_named name.now eighths }
    ensures entries { IfSome result (λ gate. AreEntries gate.rows) }
{
    look_up(name, eighths)
}

fn look_up(name: &[u8], eighths: i64) -> Option<Rows>
    ensures { result ≡ rows_named name.now eighths }
{
    fixed(name).or(phase(name, eighths).or(rotation(name, eighths)))
}

fn fixed(name: &[u8]) -> Option<Rows>
    ensures { result ≡ gate_among fixed_gates name.now }
{
    find(&FIXED, name)
}

fn phase(name: &[u8], eighths: i64) -> Option<Rows>
    ensures { result ≡ gate_among (phase_gates (rest_by 8 eighths)) name.now }
{
    find(&phases(rest(eighths, 8)), name)
}

fn rotation(name: &[u8], eighths: i64) -> Option<Rows>
    ensures { result ≡ rotation_named name.now eighths }
{
    if rest(eighths, 2) == 0 {
        find(&rotations(rest(eighths / 2, 8)), name)
    } else {
        None
    }
}

/// The rest in `0..by`.
fn rest(number: i64, by: u8) -> u8
    requires { 0 < by }
    ensures value { result ≡ rest_by by number }
    ensures below { result < by }
{
    number.rem_euclid(by as i64) as u8
}

#[cfg(test)]
mod tests {
    use super::*;
    use std::test::Fail;

    const fn unit(turn: u8, roots: u8) -> Entry {
        Entry::Unit { turn, roots }
    }

    #[test]
    fn fixed_rows(rt: HostRuntime) -> Result<(), Fail> {
        let h = gate_named(b"h", 0).ok_or("h")?;
        assert_eq!(rt; h.controls, 0);
        assert_eq!(rt;
            h.rows,
            [[unit(0, 1), unit(0, 1)], [unit(0, 1), unit(4, 1)]]
        );
        let sx = gate_named(b"sx", 0).ok_or("sx")?;
        assert_eq!(rt;
            sx.rows,
            [[unit(1, 1), unit(7, 1)], [unit(7, 1), unit(1, 1)]]
        );
        let ccx = gate_named(b"ccx", 0).ok_or("ccx")?;
        assert_eq!(rt; ccx.controls, 2);
        assert_eq!(rt;
            ccx.rows,
            [[Entry::Zero, unit(0, 0)], [unit(0, 0), Entry::Zero]]
        );
        assert_eq!(rt; gate_named(b"CX", 0), gate_named(b"cx", 0));
        assert_eq!(rt; gate_named(b"swap", 0), None);
        assert_eq!(rt; gate_named(b"H", 0), None);
        Ok(())
    }

    #[test]
    fn rows_of_an_angle(rt: HostRuntime) -> Result<(), Fail> {
        let phase = gate_named(b"cp", -9).ok_or("cp")?;
        assert_eq!(rt; phase.controls, 1);
        assert_eq!(rt;
            phase.rows,
            [[unit(0, 0), Entry::Zero], [Entry::Zero, unit(7, 0)]]
        );
        let ry = gate_named(b"ry", 2).ok_or("ry")?;
        assert_eq!(rt;
            ry.rows,
            [[unit(0, 1), unit(4, 1)], [unit(0, 1), unit(0, 1)]]
        );
        let rz = gate_named(b"rz", -2).ok_or("rz")?;
        assert_eq!(rt;
            rz.rows,
            [[unit(1, 0), Entry::Zero], [Entry::Zero, unit(7, 0)]]
        );
        let rx = gate_named(b"rx", 4).ok_or("rx")?;
        assert_eq!(rt;
            rx.rows,
            [[Entry::Zero, unit(6, 0)], [unit(6, 0), Entry::Zero]]
        );
        assert_eq!(rt; gate_named(b"rz", 1), None);
        assert_eq!(rt; gate_named(b"ry", -3), None);
        Ok(())
    }
}
