//! The headers of the press and of the lift, and the lift's report, whole.

use super::answered_examples::PRESS;
use super::doubles::are_answered;
use super::going::LIFT;
use super::modules::OF_RAM;
use super::pictures::OF_HAZARD;

/// The header of the press, whether a script follows or not.
const OF_PRESS: &str = "\
0: ./plan header
=>
=>
/* A plan's names and the layout of its word, as `plan header` prints them. The word of a state has the fields below,
   from the lowest bit: the zones, the places, the stamp and the stop. A zone's bits are, from the lowest, two for its
   owner, one for its flag (a plate is in it) if a plate has a way through it, and for its posture two; or one, 0 for
   closed, if poses give it one other posture; or none, if it is always closed. The zones of one space have one owner:
   its bits, two to four, stand in the first of them, and a comment on each other zone names that one. */
#ifndef PLAN_H
#define PLAN_H

#include <stdint.h>

/* Machines. The watch is none of them. */
#define PLAN_MACHINE_LOADER 0
#define PLAN_MACHINE_PRESS 1
#define PLAN_MACHINES 2
#define PLAN_WATCH 30

/* Zones. */
#define PLAN_ZONE_INTERIOR 0
#define PLAN_ZONES 1

/* Places. */
#define PLAN_PLACE_HAND 0
#define PLAN_PLACE_DIE 1
#define PLAN_PLACES 2

/* Poses, by machine and name. */
#define PLAN_POSE_PRESS_LOAD 0
#define PLAN_POSE_PRESS_UNLOAD 1
#define PLAN_POSE_PRESS_CLOSED 2
#define PLAN_POSE_PRESS_TRAVELLING 3
#define PLAN_POSES 4

/* Who hosts a zone, who is its guest, and who keeps a place. */
#define PLAN_HOST_OF_INTERIOR PLAN_MACHINE_PRESS
#define PLAN_GUEST_OF_INTERIOR PLAN_MACHINE_LOADER
#define PLAN_KEEPER_OF_HAND PLAN_MACHINE_LOADER
#define PLAN_KEEPER_OF_DIE PLAN_MACHINE_PRESS

/* Who owns a zone, and its posture. */
enum plan_owner { PLAN_OWNER_FREE = 0, PLAN_OWNER_HOST = 1, PLAN_OWNER_GUEST = 2 };
enum plan_posture {
    PLAN_POSTURE_CLOSED = 0,
    PLAN_POSTURE_MOVING = 1,
    PLAN_POSTURE_OPENIN = 2,
    PLAN_POSTURE_OPENOUT = 3
};

/* The lowest bit of each field, and how many bits a field has. */
#define PLAN_BIT_ZONE_INTERIOR 0
#define PLAN_BIT_PLACE_HAND 5
#define PLAN_BIT_PLACE_DIE 6
#define PLAN_BIT_STAMP 7
#define PLAN_BIT_STOP 27
#define PLAN_BITS_ZONE_INTERIOR 5
#define PLAN_BITS_PLACE 1
#define PLAN_BITS_STAMP 20
#define PLAN_BITS_STOP 1
#define PLAN_BITS 28

/* What a state's word tells of a zone: who owns it, whether a plate is in it, and its posture. */
#define PLAN_OWNER_OF_INTERIOR(word) ((word) >> PLAN_BIT_ZONE_INTERIOR & 3)
#define PLAN_PLATE_IN_INTERIOR(word) ((word) >> (PLAN_BIT_ZONE_INTERIOR + 2) & 1)
#define PLAN_POSTURE_OF_INTERIOR(word) ((word) >> (PLAN_BIT_ZONE_INTERIOR + 3) & 3)

/* The names of each kind, by their numbers. A null comes after the last. */
static const char *const PLAN_NAMES_OF_MACHINES[] = {
    \"loader\",
    \"press\",
    0,
};
static const char *const PLAN_NAMES_OF_ZONES[] = {
    \"interior\",
    0,
};
static const char *const PLAN_NAMES_OF_PLACES[] = {
    \"hand\",
    \"die\",
    0,
};
static const char *const PLAN_NAMES_OF_POSES[] = {
    \"load\",
    \"unload\",
    \"closed\",
    \"travelling\",
    0,
};
static const char *const PLAN_NAMES_OF_MOTORS[] = {
    0,
};

/* Motors and sensors, by machine and name: their bits in the lines of programs, and in what a turn gives and takes. */
#define PLAN_MOTORS 0

/* The programs, and how many lines each has, for bagunjoki_plan_take_turn. They are here only if bagunjoki_plan.h is
   included before this header. */
#ifdef BAGUNJOKI_PLAN_H
static const bagunjoki_plan_line PLAN_PROGRAM_LOADER[] = {
    {0, BAGUNJOKI_PLAN_GIVE, PLAN_ZONE_INTERIOR, 0, 0},
    {0, BAGUNJOKI_PLAN_TAKE, PLAN_ZONE_INTERIOR, 0, 0},
    {0, BAGUNJOKI_PLAN_RELEASE, PLAN_ZONE_INTERIOR, 0, 0},
};
#define PLAN_LINES_LOADER 3
static const bagunjoki_plan_line PLAN_PROGRAM_PRESS[] = {
    {0, BAGUNJOKI_PLAN_CLAIM, PLAN_ZONE_INTERIOR, 0, 0},
    {0, BAGUNJOKI_PLAN_SET_POSE, PLAN_POSE_PRESS_TRAVELLING, 0, 0},
    {0, BAGUNJOKI_PLAN_SET_POSE, PLAN_POSE_PRESS_LOAD, 0, 0},
    {0, BAGUNJOKI_PLAN_YIELD, PLAN_ZONE_INTERIOR, 0, 0},
    {0, BAGUNJOKI_PLAN_TAKE, PLAN_ZONE_INTERIOR, 0, 0},
    {0, BAGUNJOKI_PLAN_SET_POSE, PLAN_POSE_PRESS_TRAVELLING, 0, 0},
    {0, BAGUNJOKI_PLAN_SET_POSE, PLAN_POSE_PRESS_CLOSED, 0, 0},
    {0, BAGUNJOKI_PLAN_SET_POSE, PLAN_POSE_PRESS_TRAVELLING, 0, 0},
    {0, BAGUNJOKI_PLAN_SET_POSE, PLAN_POSE_PRESS_UNLOAD, 0, 0},
    {0, BAGUNJOKI_PLAN_GIVE, PLAN_ZONE_INTERIOR, 0, 0},
};
#define PLAN_LINES_PRESS 10
#endif

/* The plan, for bagunjoki_plan.h. */
static const uint8_t PLAN_BYTES[] = {
    2, 1, 4, 2, 1, 0, 1, 0,
    1, 1, 1, 0, 1, 1, 3, 0,
    0, 0, 0, 0, 0, 0, 0, 0,
    1, 1, 4, 0, 0, 0, 0, 0,
    0, 0, 0, 0, 1, 1, 1, 0,
    0, 0, 0, 0, 0, 0, 0, 0,
    1, 0, 2, 0, 0, 0, 0, 0,
    0, 0, 0, 0, 0, 1,
};

#endif
--
0: ./plan header
=>
start,10
press,claim,interior
=>
/* A plan's names and the layout of its word, [..]
    0, 0, 0, 0, 1, 1, 1, 0,
    0, 0, 0, 0, 0, 0, 0, 0,
    1, 0, 2, 0, 0, 0, 0, 0,
    0, 0, 0, 0, 0, 1,
};

#endif
";

/// The header of the lift, and its report.
const OF_LIFT: &str = "\
0: ./plan header
=>
=>
/* A plan's names and the layout of its word, as `plan header` prints them. The word of a state has the fields below,
   from the lowest bit: the zones, the places, the stamp and the stop. A zone's bits are, from the lowest, two for its
   owner, one for its flag (a plate is in it) if a plate has a way through it, and for its posture two; or one, 0 for
   closed, if poses give it one other posture; or none, if it is always closed. The zones of one space have one owner:
   its bits, two to four, stand in the first of them, and a comment on each other zone names that one. */
#ifndef PLAN_H
#define PLAN_H

#include <stdint.h>

/* Machines. The watch is none of them. */
#define PLAN_MACHINE_LIFT 0
#define PLAN_MACHINE_BELOW 1
#define PLAN_MACHINE_ABOVE 2
#define PLAN_MACHINES 3
#define PLAN_WATCH 30

/* Zones. */
#define PLAN_ZONE_LOWER 0
#define PLAN_ZONE_UPPER 1
#define PLAN_ZONES 2

/* Places. */
#define PLAN_PLACE_CABIN 0
#define PLAN_PLACE_GROUND 1
#define PLAN_PLACE_GALLERY 2
#define PLAN_PLACES 3

/* Poses, by machine and name. */
#define PLAN_POSE_LIFT_TRAVELLING 0
#define PLAN_POSE_LIFT_LOAD_BELOW 1
#define PLAN_POSE_LIFT_UNLOAD_ABOVE 2
#define PLAN_POSE_LIFT_UNLOAD_BELOW 3
#define PLAN_POSE_LIFT_LOAD_ABOVE 4
#define PLAN_POSES 5

/* Who hosts a zone, who is its guest, and who keeps a place. */
#define PLAN_HOST_OF_LOWER PLAN_MACHINE_LIFT
#define PLAN_GUEST_OF_LOWER PLAN_MACHINE_BELOW
#define PLAN_HOST_OF_UPPER PLAN_MACHINE_LIFT
#define PLAN_GUEST_OF_UPPER PLAN_MACHINE_ABOVE
#define PLAN_KEEPER_OF_CABIN PLAN_MACHINE_LIFT
#define PLAN_KEEPER_OF_GROUND PLAN_MACHINE_BELOW
#define PLAN_KEEPER_OF_GALLERY PLAN_MACHINE_ABOVE

/* Who owns a zone, and its posture. */
enum plan_owner { PLAN_OWNER_FREE = 0, PLAN_OWNER_HOST = 1, PLAN_OWNER_GUEST = 2 };
enum plan_posture {
    PLAN_POSTURE_CLOSED = 0,
    PLAN_POSTURE_MOVING = 1,
    PLAN_POSTURE_OPENIN = 2,
    PLAN_POSTURE_OPENOUT = 3
};

/* The lowest bit of each field, and how many bits a field has. */
#define PLAN_BIT_ZONE_LOWER 0
#define PLAN_BIT_ZONE_UPPER 5
#define PLAN_BIT_PLACE_CABIN 10
#define PLAN_BIT_PLACE_GROUND 11
#define PLAN_BIT_PLACE_GALLERY 12
#define PLAN_BIT_STAMP 13
#define PLAN_BIT_STOP 33
#define PLAN_BITS_ZONE_LOWER 5
#define PLAN_BITS_ZONE_UPPER 5
#define PLAN_BITS_PLACE 1
#define PLAN_BITS_STAMP 20
#define PLAN_BITS_STOP 1
#define PLAN_BITS 34

/* What a state's word tells of a zone: who owns it, whether a plate is in it, and its posture. */
#define PLAN_OWNER_OF_LOWER(word) ((word) >> PLAN_BIT_ZONE_LOWER & 3)
#define PLAN_PLATE_IN_LOWER(word) ((word) >> (PLAN_BIT_ZONE_LOWER + 2) & 1)
#define PLAN_POSTURE_OF_LOWER(word) ((word) >> (PLAN_BIT_ZONE_LOWER + 3) & 3)
#define PLAN_OWNER_OF_UPPER(word) ((word) >> PLAN_BIT_ZONE_UPPER & 3)
#define PLAN_PLATE_IN_UPPER(word) ((word) >> (PLAN_BIT_ZONE_UPPER + 2) & 1)
#define PLAN_POSTURE_OF_UPPER(word) ((word) >> (PLAN_BIT_ZONE_UPPER + 3) & 3)

/* The names of each kind, by their numbers. A null comes after the last. */
static const char *const PLAN_NAMES_OF_MACHINES[] = {
    \"lift\",
    \"below\",
    \"above\",
    0,
};
static const char *const PLAN_NAMES_OF_ZONES[] = {
    \"lower\",
    \"upper\",
    0,
};
static const char *const PLAN_NAMES_OF_PLACES[] = {
    \"cabin\",
    \"ground\",
    \"gallery\",
    0,
};
static const char *const PLAN_NAMES_OF_POSES[] = {
    \"travelling\",
    \"load_below\",
    \"unload_above\",
    \"unload_below\",
    \"load_above\",
    0,
};
static const char *const PLAN_NAMES_OF_MOTORS[] = {
    0,
};

/* Motors and sensors, by machine and name: their bits in the lines of programs, and in what a turn gives and takes. */
#define PLAN_MOTORS 0

/* The programs, and how many lines each has, for bagunjoki_plan_take_turn. They are here only if bagunjoki_plan.h is
   included before this header. */
#ifdef BAGUNJOKI_PLAN_H
static const bagunjoki_plan_line PLAN_PROGRAM_LIFT[] = {
    {0, BAGUNJOKI_PLAN_CLAIM, PLAN_ZONE_LOWER, 0, 1 << BAGUNJOKI_PLAN_SHUT | 1 << BAGUNJOKI_PLAN_NOT_OWNER},
    {0, BAGUNJOKI_PLAN_CLAIM, PLAN_ZONE_UPPER, 0, 0},
    {0, BAGUNJOKI_PLAN_SET_POSE, PLAN_POSE_LIFT_TRAVELLING, 0, 0},
    {0, BAGUNJOKI_PLAN_SET_POSE, PLAN_POSE_LIFT_LOAD_BELOW, 0, 0},
    {0, BAGUNJOKI_PLAN_YIELD, PLAN_ZONE_LOWER, 0, 0},
    {0, BAGUNJOKI_PLAN_TAKE, PLAN_ZONE_LOWER, 0, 0},
    {0, BAGUNJOKI_PLAN_SET_POSE, PLAN_POSE_LIFT_TRAVELLING, 0, 0},
    {0, BAGUNJOKI_PLAN_SET_POSE, PLAN_POSE_LIFT_UNLOAD_ABOVE, 0, 0},
    {0, BAGUNJOKI_PLAN_GIVE, PLAN_ZONE_UPPER, 0, 0},
    {0, BAGUNJOKI_PLAN_SET_POSE, PLAN_POSE_LIFT_TRAVELLING, 0, 0},
    {0, BAGUNJOKI_PLAN_SET_POSE, PLAN_POSE_LIFT_LOAD_ABOVE, 0, 0},
    {0, BAGUNJOKI_PLAN_YIELD, PLAN_ZONE_UPPER, 0, 0},
    {0, BAGUNJOKI_PLAN_TAKE, PLAN_ZONE_UPPER, 0, 0},
    {0, BAGUNJOKI_PLAN_SET_POSE, PLAN_POSE_LIFT_TRAVELLING, 0, 0},
    {0, BAGUNJOKI_PLAN_SET_POSE, PLAN_POSE_LIFT_UNLOAD_BELOW, 0, 0},
    {0, BAGUNJOKI_PLAN_GIVE, PLAN_ZONE_LOWER, 0, 0},
    {0, BAGUNJOKI_PLAN_RELEASE, PLAN_ZONE_UPPER, 0, 0},
};
#define PLAN_LINES_LIFT 17
static const bagunjoki_plan_line PLAN_PROGRAM_BELOW[] = {
    {0, BAGUNJOKI_PLAN_GIVE, PLAN_ZONE_LOWER, 0, 0},
    {0, BAGUNJOKI_PLAN_TAKE, PLAN_ZONE_LOWER, 0, 0},
    {0, BAGUNJOKI_PLAN_RELEASE, PLAN_ZONE_LOWER, 0, 0},
};
#define PLAN_LINES_BELOW 3
static const bagunjoki_plan_line PLAN_PROGRAM_ABOVE[] = {
    {0, BAGUNJOKI_PLAN_TAKE, PLAN_ZONE_UPPER, 0, 0},
    {0, BAGUNJOKI_PLAN_YIELD, PLAN_ZONE_UPPER, 0, 0},
    {0, BAGUNJOKI_PLAN_GIVE, PLAN_ZONE_UPPER, 0, 0},
};
#define PLAN_LINES_ABOVE 3
#endif

/* The plan, for bagunjoki_plan.h. */
static const uint8_t PLAN_BYTES[] = {
    3, 2, 5, 3, 0, 1, 1, 1,
    0, 1, 0, 1, 0, 2, 1, 2,
    0, 1, 0, 2, 0, 0, 2, 2,
    0, 0, 0, 0, 0, 0, 0, 0,
    0, 1, 3, 1, 0, 0, 0, 0,
    0, 0, 0, 0, 0, 1, 1, 4,
    0, 0, 0, 0, 0, 0, 0, 0,
    0, 1, 4, 1, 0, 0, 0, 0,
    0, 0, 0, 0, 0, 1, 1, 3,
    0, 0, 0, 0, 0, 0, 0, 0,
    0, 1, 2,
};

#endif
--
0: ./plan check
=>
=>
3 machines: lift below above
2 zones: lower upper
3 places: cabin ground gallery
5 poses: travelling load_below unload_above unload_below load_above
a word of 34 bits
bit 0, 5 bits: zone lower
bit 5, 5 bits: zone upper
bit 10, 1 bit: place cabin
bit 11, 1 bit: place ground
bit 12, 1 bit: place gallery
bit 13, 20 bits: stamp
bit 33, 1 bit: stop
rows: each call that is done has its row
";

#[test]
fn prints_headers_reports_modules_and_pictures(rt: HostRuntime) {
    are_answered(&rt, rt.alloc(), PRESS, OF_PRESS);
    are_answered(&rt, rt.alloc(), PRESS, OF_RAM);
    are_answered(&rt, rt.alloc(), PRESS, OF_HAZARD);
    are_answered(&rt, rt.alloc(), LIFT, OF_LIFT);
}
