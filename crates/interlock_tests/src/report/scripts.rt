//! Scripts about one zone, starts, and a plate on its way, with their answers.
//!
//! Each row has what it shows, a script and its answer. A line of dashes ends a row.

use super::is_answered;
use cell_replay::{Outcome, ScriptFault};
use std::alloc::Global;
use test_doubles::{count_parts, part};

const ANSWERED: &str = "\
A caller that isn't a party learns that first. At the last stamp a call that would be Done is worn.
=>
start,1111100010,1048575
watch,claim,z1
table,claim,z1
table,release,z1
=>
0 1048575 start 6
1 1048575 notparty
2 1048575 worn
3 1048575 notowner free
--
A guest comes before the zone is open.
=>
start,0100000000
feed,claim,z1
=>
0 0 start 1
1 0 shut closed
--
A machine that moves needs its zone.
=>
start,0000000000
press,claim,z3
press,pose,travelling
press,pose,middle
press,release,z3
robot,claim,z3
press,pose,travelling
=>
0 0 start 0
1 1 done
2 2 done
3 3 done
4 4 done
5 5 done
6 5 notowner robot
--
The table can't jump.
=>
start,0000000000
table,claim,z1
table,claim,z2
table,pose,loading
=>
0 0 start 0
1 1 done
2 2 done
3 2 jump
--
The feed belt would run a plate off its end.
=>
start,0100000000
feed,claim,z6
feed,pose,running
=>
0 0 start 1
1 1 done
2 1 placefull
--
The stamp wears out.
=>
start,0000000000,1048574
table,claim,z1
table,claim,z2
watch,inquire,z1
table,release,z1
=>
0 1048574 start 0
1 1048575 done
2 1048575 worn
3 1048575 zone table 0 closed
4 1048575 worn
--
The press's interior.
=>
start,0000000000
press,claim,z3
robot,claim,z3
press,release,z3
robot,claim,z3
watch,inquire,z3
=>
0 0 start 0
1 1 done
2 1 held press
3 2 done
4 2 shut closed
5 2 zone free 0 closed
--
The feed belt advances.
=>
start,1000000000
feed,claim,z6
feed,pose,running
feed,advance
feed,advance
watch,inquire,z6
=>
0 0 start 1
1 1 done
2 2 done
3 3 done
4 3 notatwork
5 3 zone feed 0 closed
--
A plate comes to the table.
=>
start,0100000000
table,claim,z1
table,claim,z2
table,pose,turning
table,pose,loading
table,release,z1
feed,claim,z1
feed,give,z1
table,take,z1
=>
0 0 start 1
1 1 done
2 2 done
3 3 done
4 4 done
5 5 done
6 6 done
7 7 done
8 8 done
--
It is taken once.
=>
start,0100000000
table,claim,z1
table,claim,z2
table,pose,turning
table,pose,loading
table,release,z1
feed,claim,z1
feed,give,z1
table,take,z1
table,take,z1
=>
0 0 start 1
1 1 done
2 2 done
3 3 done
4 4 done
5 5 done
6 6 done
7 7 done
8 8 done
9 8 noplate
--
The table waits for it.
=>
start,0100000000
table,claim,z1
table,claim,z2
table,pose,turning
table,pose,loading
table,release,z1
feed,claim,z1
feed,give,z1
table,pose,turning
=>
0 0 start 1
1 1 done
2 2 done
3 3 done
4 4 done
5 5 done
6 6 done
7 7 done
8 7 platein z1
--
A belt that runs with a plate at its end keeps z1 in use.
=>
start,0100000000
table,claim,z1
table,claim,z2
table,pose,turning
table,pose,loading
table,release,z1
feed,claim,z1
feed,claim,z6
feed,pose,running
feed,release,z1
feed,pose,halted
feed,yield,z1
watch,inquire,z1
=>
0 0 start 1
1 1 done
2 2 done
3 3 done
4 4 done
5 5 done
6 6 done
7 7 done
8 8 done
9 8 inuse
10 9 done
11 10 done
12 10 zone table 0 openin
--
The watch stops the cell and resumes it.
=>
start2,0000000000
press,claim,z3
watch,stop
press,pose,travelling
robot,claim,z1
press,release,z3
watch,stop
press,resume
watch,resume
watch,resume
=>
0 0 start2 0
1 1 done
2 2 done
3 2 stopped
4 2 notparty
5 3 done
6 3 stopped
7 3 notparty
8 4 done
9 4 notstopped
--
At the last stamp the watch can't stop the cell; nor can it resume a cell that isn't stopped.
=>
start2,0000000000,1048575
watch,stop
watch,resume
feed,stop
=>
0 1048575 start2 0
1 1048575 worn
2 1048575 notstopped
3 1048575 notparty
";

const REFUSED: &str = "\
No record.
=>
=>
fault nostart
--
Seven plates.
=>
start,1111111000
=>
fault badstart
--
Refusals, and a zone that doesn't exist.
=>
start,0000000000
press,claim,z3
press,pose,travelling
press,pose,middle
press,give,z3
robot,pose,middle
watch,claim,z1
press,claim,z3
feed,claim,z7
=>
0 0 start 0
1 1 done
2 2 done
3 3 done
4 3 wrongway
5 3 nopose
6 3 notparty
7 3 already
fault badrow 8
--
A script of the first version doesn't stop the cell.
=>
start,0000000000
watch,stop
=>
0 0 start 0
fault badrow 1
--
A script of the first version doesn't stop the cell.
=>
start,0000000000
watch,inquire,z3
watch,resume
=>
0 0 start 0
1 0 zone free 0 closed
fault badrow 2
--
A script of the first version doesn't stop the cell.
=>
start,0000000000
press,stop
=>
0 0 start 0
fault badrow 1
--
One of the second does, by two fields.
=>
start2,0000000000
watch,stop
watch,resume,z1
=>
0 0 start2 0
1 1 done
fault badrow 2
--
One of the second does, by two fields.
=>
start2,0000000000
watch,stop,
=>
0 0 start2 0
fault badrow 1
";

/// How each of the refused scripts ends.
const FAULTS: [ScriptFault; 8] = [
    ScriptFault::NoStart,
    ScriptFault::BadStart,
    ScriptFault::BadRow(8),
    ScriptFault::BadRow(1),
    ScriptFault::BadRow(2),
    ScriptFault::BadRow(1),
    ScriptFault::BadRow(2),
    ScriptFault::BadRow(1),
];

/// Whether a row's script gets its answer and has this outcome.
fn is_row(alloc: Global, row: &str, outcome: Outcome) -> bool {
    let script = part(row, "=>\n", 1);
    is_answered(alloc, script.as_bytes(), part(row, "=>\n", 2), outcome)
}

#[test]
fn answers_scripts(rt: HostRuntime) {
    for number in 0..count_parts(ANSWERED, "--\n") {
        let row = part(ANSWERED, "--\n", number);
        assert!(rt; is_row(rt.alloc(), row, Outcome::Clean), "{row}");
    }
}

#[test]
fn refuses_scripts(rt: HostRuntime) {
    assert!(rt; count_parts(REFUSED, "--\n") == FAULTS.len());
    for number in 0..FAULTS.len() {
        let row = part(REFUSED, "--\n", number);
        let outcome = Outcome::Refused(FAULTS[number]);
        assert!(rt; is_row(rt.alloc(), row, outcome), "{row}");
    }
}
