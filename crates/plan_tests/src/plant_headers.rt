//! The header of a plant, whole: that of a press, on one word.

use super::answered_examples::PRESS;
use super::doubles::are_answered;

/// The header of all words of the press, which is on one.
const OF_PRESS: &str = "\
0: ./plan header --words
=>
=>
/* A plant on several words, as `plan header --words` prints it: the header of each word's plan. What that of word 0
   defines begins with PLAN0_ or plan0_, what that of word 1 defines with PLAN1_ or plan1_, and so on. */
#define PLANT_WORDS 1

/* A plan's names and the layout of its word, as `plan header` prints them. The word of a state has the fields below,
   from the lowest bit: the zones, the places, the stamp and the stop. A zone's bits are, from the lowest, two for its
   owner, one for its flag (a plate is in it) if a plate has a way through it, and for its posture two; or one, 0 for
   closed, if poses give it one other posture; or none, if it is always closed. The zones of one space have one owner:
   its bits, two to four, stand in the first of them, and a comment on each other zone names that one. */
#ifndef PLAN0_H
#define PLAN0_H

#include <stdint.h>

/* Machines. The watch is none of them. */
#define PLAN0_MACHINE_LOADER 0
#define PLAN0_MACHINE_PRESS 1
#define PLAN0_MACHINES 2
#define PLAN0_WATCH 30

/* Zones. */
#define PLAN0_ZONE_INTERIOR 0
#define PLAN0_ZONES 1

/* Places. */
#define PLAN0_PLACE_HAND 0
#define PLAN0_PLACE_DIE 1
#define PLAN0_PLACES 2

/* Poses, by machine and name. */
#define PLAN0_POSE_PRESS_LOAD 0
#define PLAN0_POSE_PRESS_UNLOAD 1
#define PLAN0_POSE_PRESS_CLOSED 2
#define PLAN0_POSE_PRESS_TRAVELLING 3
#define PLAN0_POSES 4

/* Who hosts a zone, who is its guest, and who keeps a place. */
#define PLAN0_HOST_OF_INTERIOR PLAN0_MACHINE_PRESS
#define PLAN0_GUEST_OF_INTERIOR PLAN0_MACHINE_LOADER
#define PLAN0_KEEPER_OF_HAND PLAN0_MACHINE_LOADER
#define PLAN0_KEEPER_OF_DIE PLAN0_MACHINE_PRESS

/* Who owns a zone, and its posture. */
enum plan0_owner { PLAN0_OWNER_FREE = 0, PLAN0_OWNER_HOST = 1, PLAN0_OWNER_GUEST = 2 };
enum plan0_posture {
    PLAN0_POSTURE_CLOSED = 0,
    PLAN0_POSTURE_MOVING = 1,
    PLAN0_POSTURE_OPENIN = 2,
    PLAN0_POSTURE_OPENOUT = 3
};

/* The lowest bit of each field, and how many bits a field has. */
#define PLAN0_BIT_ZONE_INTERIOR 0
#define PLAN0_BIT_PLACE_HAND 5
#define PLAN0_BIT_PLACE_DIE 6
#define PLAN0_BIT_STAMP 7
#define PLAN0_BIT_STOP 27
#define PLAN0_BITS_ZONE_INTERIOR 5
#define PLAN0_BITS_PLACE 1
#define PLAN0_BITS_STAMP 20
#define PLAN0_BITS_STOP 1
#define PLAN0_BITS 28

/* What a state's word tells of a zone: who owns it, whether a plate is in it, and its posture. */
#define PLAN0_OWNER_OF_INTERIOR(word) ((word) >> PLAN0_BIT_ZONE_INTERIOR & 3)
#define PLAN0_PLATE_IN_INTERIOR(word) ((word) >> (PLAN0_BIT_ZONE_INTERIOR + 2) & 1)
#define PLAN0_POSTURE_OF_INTERIOR(word) ((word) >> (PLAN0_BIT_ZONE_INTERIOR + 3) & 3)

/* The names of each kind, by their numbers. A null comes after the last. */
static const char *const PLAN0_NAMES_OF_MACHINES[] = {
    \"loader\",
    \"press\",
    0,
};
static const char *const PLAN0_NAMES_OF_ZONES[] = {
    \"interior\",
    0,
};
static const char *const PLAN0_NAMES_OF_PLACES[] = {
    \"hand\",
    \"die\",
    0,
};
static const char *const PLAN0_NAMES_OF_POSES[] = {
    \"load\",
    \"unload\",
    \"closed\",
    \"travelling\",
    0,
};
static const char *const PLAN0_NAMES_OF_MOTORS[] = {
    0,
};

/* Motors and sensors, by machine and name: their bits in the lines of programs, and in what a turn gives and takes. */
#define PLAN0_MOTORS 0

/* The programs, and how many lines each has, for bagunjoki_plan_take_turn. They are here only if bagunjoki_plan.h is
   included before this header. */
#ifdef BAGUNJOKI_PLAN_H
static const bagunjoki_plan_line PLAN0_PROGRAM_LOADER[] = {
    {0, BAGUNJOKI_PLAN_GIVE, PLAN0_ZONE_INTERIOR, 0, 0},
    {0, BAGUNJOKI_PLAN_TAKE, PLAN0_ZONE_INTERIOR, 0, 0},
    {0, BAGUNJOKI_PLAN_RELEASE, PLAN0_ZONE_INTERIOR, 0, 0},
};
#define PLAN0_LINES_LOADER 3
static const bagunjoki_plan_line PLAN0_PROGRAM_PRESS[] = {
    {0, BAGUNJOKI_PLAN_CLAIM, PLAN0_ZONE_INTERIOR, 0, 0},
    {0, BAGUNJOKI_PLAN_SET_POSE, PLAN0_POSE_PRESS_TRAVELLING, 0, 0},
    {0, BAGUNJOKI_PLAN_SET_POSE, PLAN0_POSE_PRESS_LOAD, 0, 0},
    {0, BAGUNJOKI_PLAN_YIELD, PLAN0_ZONE_INTERIOR, 0, 0},
    {0, BAGUNJOKI_PLAN_TAKE, PLAN0_ZONE_INTERIOR, 0, 0},
    {0, BAGUNJOKI_PLAN_SET_POSE, PLAN0_POSE_PRESS_TRAVELLING, 0, 0},
    {0, BAGUNJOKI_PLAN_SET_POSE, PLAN0_POSE_PRESS_CLOSED, 0, 0},
    {0, BAGUNJOKI_PLAN_SET_POSE, PLAN0_POSE_PRESS_TRAVELLING, 0, 0},
    {0, BAGUNJOKI_PLAN_SET_POSE, PLAN0_POSE_PRESS_UNLOAD, 0, 0},
    {0, BAGUNJOKI_PLAN_GIVE, PLAN0_ZONE_INTERIOR, 0, 0},
};
#define PLAN0_LINES_PRESS 10
#endif

/* The plan, for bagunjoki_plan.h. */
static const uint8_t PLAN0_BYTES[] = {
    2, 1, 4, 2, 1, 0, 1, 0,
    1, 1, 1, 0, 1, 1, 3, 0,
    0, 0, 0, 0, 0, 0, 0, 0,
    1, 1, 4, 0, 0, 0, 0, 0,
    0, 0, 0, 0, 1, 1, 1, 0,
    0, 0, 0, 0, 0, 0, 0, 0,
    1, 0, 2, 0, 0, 0, 0, 0,
    0, 0, 0, 0, 0, 1,
};

#endif
";

#[test]
fn prints_headers_of_plants(rt: HostRuntime) {
    are_answered(&rt, rt.alloc(), PRESS, OF_PRESS);
}
