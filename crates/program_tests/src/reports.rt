//! Reports of runs. They were worked out by hand from the programs of the controllers and the
//! numbers of the plant; those of long runs of six machines were made by `bench/plain/sim.rs`.

/// Simulations and runs: words, the status, a configuration, its report, and what that shows, with arrows between them.
/// Bars separate the rows.
pub const REPORTS: &str = "\
cell sim => 0 => start = \"0000000000\" => \
version 2
start 0000000000 0
feed turns 0 done 0 read 0 refused 0 busy 0 ok
table turns 0 done 0 read 0 refused 0 busy 0 ok
robot turns 0 done 0 read 0 refused 0 busy 0 ok
press turns 0 done 0 read 0 refused 0 busy 0 ok
deposit turns 0 done 0 read 0 refused 0 busy 0 ok
crane turns 0 done 0 read 0 refused 0 busy 0 ok
watch turns 0 done 0 read 0 refused 0 busy 0 ok
zone z1 free 0 closed
zone z2 free 0 closed
zone z3 free 0 closed
zone z4 free 0 closed
zone z5 free 0 closed
zone z6 free 0 closed
places 0000000000
axes press 1000 arm1 0 arm2 0 rotation 300 lift 0 turn 0 crane 0 gripper 900
stamp 0 plates 0 stopped 0
audit ok
 => Neither table nor press has moved.|\
cell sim => 0 => start = \"0000000000\"\nschedule = \"ftrpdcFTRPDC\" => \
version 2
start 0000000000 0
feed turns 2 done 1 read 0 refused 0 busy 1 ok
table turns 2 done 1 read 0 refused 0 busy 1 ok
robot turns 2 done 0 read 0 refused 0 busy 1 ok
press turns 2 done 1 read 0 refused 0 busy 1 ok
deposit turns 2 done 1 read 0 refused 0 busy 1 ok
crane turns 2 done 0 read 0 refused 0 busy 0 ok
watch turns 0 done 0 read 0 refused 0 busy 0 ok
zone z1 table 0 closed
zone z2 free 0 closed
zone z3 press 0 closed
zone z4 deposit 0 closed
zone z5 free 0 closed
zone z6 feed 0 closed
places 0000000000
axes press 1000 arm1 0 arm2 0 rotation 300 lift 0 turn 0 crane 0 gripper 900
stamp 4 plates 0 stopped 0
audit ok
 => Each machine has had one turn, and another one that found the interlock busy if it asked.|\
cell sim => 0 => start = \"0000000000\"\nschedule = \"P\" => \
version 2
start 0000000000 0
feed turns 0 done 0 read 0 refused 0 busy 0 ok
table turns 0 done 0 read 0 refused 0 busy 0 ok
robot turns 0 done 0 read 0 refused 0 busy 0 ok
press turns 1 done 0 read 0 refused 0 busy 1 ok
deposit turns 0 done 0 read 0 refused 0 busy 0 ok
crane turns 0 done 0 read 0 refused 0 busy 0 ok
watch turns 0 done 0 read 0 refused 0 busy 0 ok
zone z1 free 0 closed
zone z2 free 0 closed
zone z3 free 0 closed
zone z4 free 0 closed
zone z5 free 0 closed
zone z6 free 0 closed
places 0000000000
axes press 1000 arm1 0 arm2 0 rotation 300 lift 0 turn 0 crane 0 gripper 900
stamp 0 plates 0 stopped 0
audit ok
 => The press's call found the interlock busy.|\
cell sim => 0 => start = \"0000000000\"\nschedule = \"wpwp\" => \
version 2
start 0000000000 0
feed turns 0 done 0 read 0 refused 0 busy 0 ok
table turns 0 done 0 read 0 refused 0 busy 0 ok
robot turns 0 done 0 read 0 refused 0 busy 0 ok
press turns 2 done 1 read 0 refused 1 busy 0 ok
deposit turns 0 done 0 read 0 refused 0 busy 0 ok
crane turns 0 done 0 read 0 refused 0 busy 0 ok
watch turns 2 done 2 read 0 refused 0 busy 0 ok
zone z1 free 0 closed
zone z2 free 0 closed
zone z3 press 0 closed
zone z4 free 0 closed
zone z5 free 0 closed
zone z6 free 0 closed
places 0000000000
axes press 1000 arm1 0 arm2 0 rotation 300 lift 0 turn 0 crane 0 gripper 900
stamp 3 plates 0 stopped 0
audit ok
 => The watch stops the cell and resumes it, each before a turn of the press.|\
cell sim => 0 => start = \"0000000000\"\nschedule = \"ttttttt\" => \
version 2
start 0000000000 0
feed turns 0 done 0 read 0 refused 0 busy 0 ok
table turns 7 done 5 read 0 refused 1 busy 0 ok
robot turns 0 done 0 read 0 refused 0 busy 0 ok
press turns 0 done 0 read 0 refused 0 busy 0 ok
deposit turns 0 done 0 read 0 refused 0 busy 0 ok
crane turns 0 done 0 read 0 refused 0 busy 0 ok
watch turns 0 done 0 read 0 refused 0 busy 0 ok
zone z1 free 0 openin
zone z2 table 0 closed
zone z3 free 0 closed
zone z4 free 0 closed
zone z5 free 0 closed
zone z6 free 0 closed
places 0000000000
axes press 1000 arm1 0 arm2 0 rotation 300 lift 0 turn 0 crane 0 gripper 900
stamp 5 plates 0 stopped 0
audit ok
 => The table waits for the feed belt's plate.|\
cell sim => 0 => start = \"0010000000\"\nschedule = \"ttttttttttttttttttttttttttttttttttttt\" => \
version 2
start 0010000000 0
feed turns 0 done 0 read 0 refused 0 busy 0 ok
table turns 37 done 5 read 0 refused 1 busy 0 ok
robot turns 0 done 0 read 0 refused 0 busy 0 ok
press turns 0 done 0 read 0 refused 0 busy 0 ok
deposit turns 0 done 0 read 0 refused 0 busy 0 ok
crane turns 0 done 0 read 0 refused 0 busy 0 ok
watch turns 0 done 0 read 0 refused 0 busy 0 ok
zone z1 table 0 closed
zone z2 robot 1 openout
zone z3 free 0 closed
zone z4 free 0 closed
zone z5 free 0 closed
zone z6 free 0 closed
places 0000000000
axes press 1000 arm1 0 arm2 0 rotation 300 lift 600 turn 500 crane 0 gripper 900
stamp 5 plates 1 stopped 0
audit ok
 => The table has gone to the top, and waits for the robot to take its plate.|\
cell sim => 0 => start = \"0000000000\"\nschedule = \"ppppppppppppppppppppppppppppppp\"\n => \
version 2
start 0000000000 0
feed turns 0 done 0 read 0 refused 0 busy 0 ok
table turns 0 done 0 read 0 refused 0 busy 0 ok
robot turns 0 done 0 read 0 refused 0 busy 0 ok
press turns 31 done 4 read 0 refused 1 busy 0 ok
deposit turns 0 done 0 read 0 refused 0 busy 0 ok
crane turns 0 done 0 read 0 refused 0 busy 0 ok
watch turns 0 done 0 read 0 refused 0 busy 0 ok
zone z1 free 0 closed
zone z2 free 0 closed
zone z3 free 0 openin
zone z4 free 0 closed
zone z5 free 0 closed
zone z6 free 0 closed
places 0000000000
axes press 500 arm1 0 arm2 0 rotation 300 lift 0 turn 0 crane 0 gripper 900
stamp 4 plates 0 stopped 0
audit ok
 => The press has gone to its middle, opened its interior and released it.|\
cell sim => 0 => start = \"0100000000\"\nschedule = \"ttttttffffffffffft\"\n => \
version 2
start 0100000000 0
feed turns 11 done 5 read 0 refused 0 busy 0 ok
table turns 7 done 6 read 0 refused 0 busy 0 ok
robot turns 0 done 0 read 0 refused 0 busy 0 ok
press turns 0 done 0 read 0 refused 0 busy 0 ok
deposit turns 0 done 0 read 0 refused 0 busy 0 ok
crane turns 0 done 0 read 0 refused 0 busy 0 ok
watch turns 0 done 0 read 0 refused 0 busy 0 ok
zone z1 table 0 openin
zone z2 table 0 closed
zone z3 free 0 closed
zone z4 free 0 closed
zone z5 free 0 closed
zone z6 feed 0 closed
places 0010000000
axes press 1000 arm1 0 arm2 0 rotation 300 lift 0 turn 0 crane 0 gripper 900
stamp 11 plates 1 stopped 0
audit ok
 => 6 turns of the table, 11 of the belt, 1 of the table: the belt has pushed its plate onto the table.|\
cell sim => 0 => start = \"0001000000\"\nschedule = \"\
pppppppppppppppppppppppppppppprrrrrrrrrrrrrrrrrrrrrrrrrrrrrrrrrrrrrrrrrrrrrrrrrrrrrrrrrrrrrrrrrrrrrr\
rrrrrrrrrrrrrrrrrrrrrrrrrrrrrrrrrrrrrrrrrrrrrrrrrrrrrrrrrrrrrrrrrrrrrrrrrp\"\n => \
version 2
start 0001000000 0
feed turns 0 done 0 read 0 refused 0 busy 0 ok
table turns 0 done 0 read 0 refused 0 busy 0 ok
robot turns 143 done 2 read 1 refused 0 busy 0 ok
press turns 31 done 5 read 0 refused 0 busy 0 ok
deposit turns 0 done 0 read 0 refused 0 busy 0 ok
crane turns 0 done 0 read 0 refused 0 busy 0 ok
watch turns 0 done 0 read 0 refused 0 busy 0 ok
zone z1 free 0 closed
zone z2 free 0 closed
zone z3 press 0 openin
zone z4 free 0 closed
zone z5 free 0 closed
zone z6 free 0 closed
places 0000100000
axes press 500 arm1 20 arm2 0 rotation 1480 lift 0 turn 0 crane 0 gripper 900
stamp 7 plates 1 stopped 0
audit ok
 => 30 turns of the press, 143 of the robot, 1 of the press: the robot has put its plate into the press.|\
cell sim => 0 => start = \"0000000001\"\nschedule = \"\
fffccccccccccccccccccccccccccccccccccccccccccccccccccccccccccccccccccccccccccccccccccccccccccccccccc\
cccccccccccccccccccccccccccccccccccccccccccccccccccccccccccccccf\"\n => \
version 2
start 0000000001 0
feed turns 4 done 4 read 0 refused 0 busy 0 ok
table turns 0 done 0 read 0 refused 0 busy 0 ok
robot turns 0 done 0 read 0 refused 0 busy 0 ok
press turns 0 done 0 read 0 refused 0 busy 0 ok
deposit turns 0 done 0 read 0 refused 0 busy 0 ok
crane turns 160 done 2 read 0 refused 0 busy 0 ok
watch turns 0 done 0 read 0 refused 0 busy 0 ok
zone z1 free 0 closed
zone z2 free 0 closed
zone z3 free 0 closed
zone z4 free 0 closed
zone z5 free 0 closed
zone z6 feed 0 openin
places 1000000000
axes press 1000 arm1 0 arm2 0 rotation 300 lift 0 turn 0 crane 2000 gripper 860
stamp 6 plates 1 stopped 0
audit ok
 => 3 turns of the belt, 160 of the crane, 1 of the belt: the crane has brought its plate back.|\
cell sim => 1 => start = \"0000000000\"\nstamp = 1048575\nschedule = \"ttP\" => \
version 2
start 0000000000 1048575
feed turns 0 done 0 read 0 refused 0 busy 0 ok
table turns 1 done 0 read 0 refused 1 busy 0 worn
robot turns 0 done 0 read 0 refused 0 busy 0 ok
press turns 1 done 0 read 0 refused 0 busy 1 ok
deposit turns 0 done 0 read 0 refused 0 busy 0 ok
crane turns 0 done 0 read 0 refused 0 busy 0 ok
watch turns 0 done 0 read 0 refused 0 busy 0 ok
zone z1 free 0 closed
zone z2 free 0 closed
zone z3 free 0 closed
zone z4 free 0 closed
zone z5 free 0 closed
zone z6 free 0 closed
places 0000000000
axes press 1000 arm1 0 arm2 0 rotation 300 lift 0 turn 0 crane 0 gripper 900
stamp 1048575 plates 0 stopped 0
audit ok
 => The last stamp stops the table before its first call is done.|\
cell run --turns 3 --tries 64 => 0 => start = \"0000000000\"\n => \
version 2
start 0000000000 0
feed turns 3 done 3 read 0 refused 0 busy 0 ok
table turns 3 done 3 read 0 refused 0 busy 0 ok
robot turns 3 done 0 read 2 refused 0 busy 0 ok
press turns 3 done 2 read 0 refused 0 busy 0 ok
deposit turns 3 done 3 read 0 refused 0 busy 0 ok
crane turns 3 done 0 read 1 refused 0 busy 0 ok
watch turns 0 done 0 read 0 refused 0 busy 0 ok
zone z1 table 0 moving
zone z2 table 0 moving
zone z3 press 0 moving
zone z4 deposit 0 openin
zone z5 deposit 0 closed
zone z6 free 0 openin
places 0000000000
axes press 980 arm1 0 arm2 0 rotation 300 lift 0 turn 0 crane 0 gripper 900
stamp 11 plates 0 stopped 0
audit ok
 => Six workers take three turns each, and no call is Busy.|\
cell run --tries=64 --turns=3 => 0 => start = \"0000000000\"\nschedule = \"ppp\" => \
version 2
start 0000000000 0
feed turns 3 done 3 read 0 refused 0 busy 0 ok
table turns 3 done 3 read 0 refused 0 busy 0 ok
robot turns 3 done 0 read 2 refused 0 busy 0 ok
press turns 3 done 2 read 0 refused 0 busy 0 ok
deposit turns 3 done 3 read 0 refused 0 busy 0 ok
crane turns 3 done 0 read 1 refused 0 busy 0 ok
watch turns 0 done 0 read 0 refused 0 busy 0 ok
zone z1 table 0 moving
zone z2 table 0 moving
zone z3 press 0 moving
zone z4 deposit 0 openin
zone z5 deposit 0 closed
zone z6 free 0 openin
places 0000000000
axes press 980 arm1 0 arm2 0 rotation 300 lift 0 turn 0 crane 0 gripper 900
stamp 11 plates 0 stopped 0
audit ok
 => The schedule is checked, but isn't used.";

/// The report if the table has gone to the top and the press to its middle, after 500,000 turns each.
pub const LONGEST: &str = "\
version 2
start 0010000000 0
feed turns 0 done 0 read 0 refused 0 busy 0 ok
table turns 500000 done 5 read 0 refused 499964 busy 0 ok
robot turns 0 done 0 read 0 refused 0 busy 0 ok
press turns 500000 done 4 read 0 refused 499970 busy 0 ok
deposit turns 0 done 0 read 0 refused 0 busy 0 ok
crane turns 0 done 0 read 0 refused 0 busy 0 ok
watch turns 0 done 0 read 0 refused 0 busy 0 ok
zone z1 table 0 closed
zone z2 robot 1 openout
zone z3 free 0 openin
zone z4 free 0 closed
zone z5 free 0 closed
zone z6 free 0 closed
places 0000000000
axes press 500 arm1 0 arm2 0 rotation 300 lift 600 turn 500 crane 0 gripper 900
stamp 9 plates 1 stopped 0
audit ok
";
