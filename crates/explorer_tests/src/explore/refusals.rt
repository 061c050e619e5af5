//! What is said of a refusal that stops a machine. No turns of the six programs lead to one: so a walk says of
//! machines that they would be stopped, though they only wait.
ghost use Rattle.cell_rules.specs.Start.{IsStartState};
ghost use Rattle.cell_config.specs.Configured.{AreAxisScales, AreCurvesOf};

use cell_config::{Config, read_config};
use cell_explorer::{NextTurn, Prospect, Walk, take_turns};
use cell_types::Machine;
use explore_app::ending::Ending;
use explore_app::schedule::ScheduleFault;
use explore_app::screen::walk_screen;
use std::alloc::{AllocError, Global};
use test_doubles::{count_parts, part};

/// Turns, those of the schedule, what the next turn of each machine would do after them (a: it acts, w: it waits, s: a
/// refusal stops it), and the screen; empty where turns don't lead a simulated cell to what is told. Bars separate the
/// rows. Of the last ones, the machine isn't refused; it has one turn more than the schedule; another drives on
/// meanwhile; nobody is refused.
const ROWS: &str = "\
ppppp => ppppp => awasaw => \
# plates 0
# a refusal that stops a machine after 5 turns, and no fewer
# press is refused: take z3: notowner free
start = \"0000000000\"
schedule = \"ppppppppppppppppppppppppppppppp\"
|\
fffttttttrpppppddddcc => fffttttttrpppppddddcc => swswws => \
# plates 0
# a refusal that stops a machine after 21 turns, and no fewer
# feed is refused: take z6: notowner free
# robot is refused: inquire z2: zone table 0 closed
# crane is refused: inquire z5: zone deposit 0 closed
start = \"0000000000\"
schedule = \"fffttttttppppppppppppppppppppppppppppppddddfrrccc\"
|\
fff => fff => aaasaa => |\
fff => ff => saaaaa => |\
tt => t => asaaaa => |\
rppppp => rppppp => aaasaa => |\
fffttttttrpppppddddcc => fffttttttrpppppddddcc => wwwwww => |\
\u{20}=>  => aaaaaa => ";

/// Adds the machines that have these turns.
fn push_machines(way: &mut Vec<Machine>, letters: &str) -> Result<(), AllocError> {
    for letter in letters.chars() {
        way.push(match letter {
            'f' => Machine::Feed,
            't' => Machine::Table,
            'r' => Machine::Robot,
            'p' => Machine::Press,
            'd' => Machine::Deposit,
            'c' => Machine::Crane,
            _ => Machine::Watch,
        })?;
    }
    Ok(())
}

/// What a letter says that a turn would do.
fn prospect_of(letter: Option<&u8>) -> Prospect {
    match letter {
        Some(b'a') => Prospect::Acts,
        Some(b'w') => Prospect::Waits,
        _ => Prospect::Stops,
    }
}

/// Has the walk say that the next turn of each machine but the watch would do this.
fn expect(walk: &mut Walk, prospects: &str) {
    for number in 0..6usize {
        let machine = Machine::ALL[number];
        let next = NextTurn {
            prospect: prospect_of(prospects.as_bytes().get(number)),
            ..*walk.next.at(machine)
        };
        walk.next.put(machine, next);
    }
}

/// Whether the screen of a row's refusal after these turns is the row's, by the schedule of that way.
fn is_walked(alloc: Global, config: &Config, turns: &[Machine], way: &[Machine], row: &str) -> bool
    requires start { IsStartState config.now.start }
    requires points { AreAxisScales config.now.points }
    requires curves { AreCurvesOf config.now.points config.now.curves }
{
    let wanted = part(row, " => ", 3);
    match take_turns(alloc, &config.start, turns) {
        Ok(mut walk) => {
            expect(&mut walk, part(row, " => ", 2));
            match walk_screen(alloc, config, Ending::Refusal, way, &walk) {
                Ok(screen) => screen.as_str() == wanted,
                Err(fault) => fault == ScheduleFault::Apart && wanted.is_empty(),
            }
        }
        Err(_) => false,
    }
}

/// Whether the screen of a row's refusal in an empty cell is the row's.
fn is_told(alloc: Global, row: &str) -> bool {
    let mut turns = Vec::new(alloc);
    let mut way = Vec::new(alloc);
    let is_made = push_machines(&mut turns, part(row, " => ", 0)).is_ok()
        && push_machines(&mut way, part(row, " => ", 1)).is_ok();
    match read_config(alloc, &mut "start = \"0000000000\"\n".as_bytes()) {
        Ok(config) => is_made && is_walked(alloc, &config, turns.as_slice(), way.as_slice(), row),
        Err(_) => false,
    }
}

#[test]
fn tells_a_refusal(rt: HostRuntime) {
    for number in 0..count_parts(ROWS, "|") {
        let row = part(ROWS, "|", number);
        assert!(rt; is_told(rt.alloc(), row), "{row}");
    }
}
