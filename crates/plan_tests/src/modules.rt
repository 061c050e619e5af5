//! The module of the press for Python, whole.

/// A motor of the press, which runs only while the press holds the interior and that moves; and the module.
pub const OF_RAM: &str = "\
0: ./plan header --python
=>

[[motor]]
name = \"ram\"
machine = \"press\"
holds = { interior = \"moving\" }
=>
# A plan, as `plan header --python` prints it, for bagunjoki_plan.py: its bytes, its names in the order of their \
    numbers, and
# its motors with the bits of a word that each looks at and what these have to be.
from bagunjoki_plan import Plant

BYTES = bytes((
    2, 1, 4, 2, 1, 0, 1, 0,
    1, 1, 1, 0, 1, 1, 3, 0,
    0, 0, 0, 0, 0, 0, 0, 0,
    1, 1, 4, 0, 0, 0, 0, 0,
    0, 0, 0, 0, 1, 1, 1, 0,
    0, 0, 0, 0, 0, 0, 0, 0,
    1, 0, 2, 0, 0, 0, 0, 0,
    0, 0, 0, 0, 0, 1,
))

PLANT = Plant(
    machines=(
        \"loader\",
        \"press\",
    ),
    zones=(
        \"interior\",
    ),
    places=(
        \"hand\",
        \"die\",
    ),
    poses=(
        (\"press\", \"load\"),
        (\"press\", \"unload\"),
        (\"press\", \"closed\"),
        (\"press\", \"travelling\"),
    ),
    motors=(
        (\"ram\", 27, 9),
    ),
    plan=BYTES,
)

if __name__ == \"__main__\":
    raise SystemExit(PLANT.main())
";
