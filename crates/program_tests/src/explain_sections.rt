//! Sections that are refused. Each text stands below a line with a good start.

/// A section's text, and what is said of it.
pub const SECTIONS: &str = "\
    [arm1]\nraw = [0, 4000]\n[turn]\nraw = [0, 499]\n \
        => config range: line 5: raw of turn is out of range: it takes two numbers from 0 to 65535, the \
        second greater by 500 or more\n \
        => The first section that is refused, in the order arm1, arm2, rotation, turn, gripper.|\
    [arm1]\npoints = [[0, 0], [4000, 1000]]\n[turn]\ntol = 11\n \
        => config range: line 5: tol of turn is out of range: it takes 1 to 10\n|\
    [turn]\nraw = [0, 499]\n[arm1]\nraw = [0, 999]\n \
        => config range: line 5: raw of arm1 is out of range: it takes two numbers from 0 to 65535, the \
        second greater by 1000 or more\n|\
    [gripper]\ntol = 0\n[rotation]\nraw = [0, 1999]\n \
        => config range: line 5: raw of rotation is out of range: it takes two numbers from 0 to 65535, the \
        second greater by 2000 or more\n|\
    rotation.tol = 0\narm2.tol = 0\n \
        => config range: line 3: tol of arm2 is out of range: it takes 1 to 10\n|\
    [arm2]\ntol = 11\n[turn]\nraw = 5\n \
        => config range: line 3: tol of arm2 is out of range: it takes 1 to 10\n|\
    [turn]\npoints = []\ntol = 0\nraw = [0, 65536]\n \
        => config range: line 5: raw of turn is out of range: it takes two numbers from 0 to 65535, the \
        second greater by 500 or more\n \
        => In a section the first key, in the order raw, tol, points.|\
    [turn]\npoints = []\ntol = 0\nraw = [0, 500]\n \
        => config range: line 4: tol of turn is out of range: it takes 1 to 10\n|\
    [turn]\npoints = 3\ntol = 11\n \
        => config range: line 4: tol of turn is out of range: it takes 1 to 10\n|\
    arm2.points = [[0, 0]]\n \
        => config range: line 2: points of arm2 takes 2 to 32 pairs\n \
        => Measured curves.|\
    arm2.points = [[-1, 0], [0, 0], [0, 0], [0, 0], [0, 0], [0, 0], [0, 0], [0, 0], [0, 0], [0, 0], [0, 0], \
        [0, 0], [0, 0], [0, 0], [0, 0], [0, 0], [0, 0], [0, 0], [0, 0], [0, 0], [0, 0], [0, 0], [0, 0], [0, \
        0], [0, 0], [0, 0], [0, 0], [0, 0], [0, 0], [0, 0], [0, 0], [0, 0], [0, 0]]\n \
        => config range: line 2: points of arm2 takes 2 to 32 pairs\n|\
    [arm2]\npoints = [[-1, 0], [4000, 1000]]\n \
        => config range: line 3: points of arm2 has a number out of range: raw values are from 0 to 65535, \
        positions from 0 to 1000\n|\
    [arm2]\nraw = [100, 3900]\npoints = [[0, 0], [3900, 1000]]\n \
        => config range: line 4: points of arm2 has wrong ends: by raw its first raw value is 100, and its \
        last 3900\n|\
    [rotation]\npoints = [[0, 0], [2000, 1000], [2000, 1000], [4000, 2000]]\n \
        => config range: line 3: points of rotation is out of order: each raw value is less than the next\n|\
    [arm2]\ntol = 3\npoints = [[0, 0], [1000, 253], [4000, 1000]]\n \
        => config range: line 4: points of arm2 is off the line: positions are from 0 to 1000, and at most 2 \
        off the straight line\n|\
    turn.points = [[0, 0], [4000, 501]]\n \
        => config range: line 2: points of turn is off the line: positions are from 0 to 500, and at most 4 \
        off the straight line\n|\
    [arm1]\npoints = [[0, 0], [4000, 1000]]\n[turn]\npoints = 3\n \
        => config kind: line 5: points of turn takes pairs of whole numbers, such as [[0, 0], [4000, 500]]\n \
        => Values of another kind, on the line of their key in their own section.|\
    [arm1]\nraw = [0, 4000]\n[gripper]\n\nraw = [0]\n \
        => config kind: line 6: raw of gripper takes two whole numbers, such as [0, 4000]\n|\
    [arm1]\ntol = 5\n[turn]\ntol = \"5\"\n \
        => config kind: line 5: tol of turn takes a whole number, 1 to 10\n|\
    [arm1]\n[arm1.raw]\nlow = 0\n \
        => config kind: line 3: raw of arm1 takes two whole numbers, such as [0, 4000]\n|\
    turn = 3\n \
        => config kind: line 2: turn takes a section with the keys raw, tol and points; its head is [turn]\n|\
    [[turn]]\ntol = 3\n \
        => config kind: line 2: turn takes a section with the keys raw, tol and points; its head is [turn]\n|\
    turn.raw = [0, 500]\narm1.raw = [0, 999]\n \
        => config range: line 3: raw of arm1 is out of range: it takes two numbers from 0 to 65535, the \
        second greater by 1000 or more\n \
        => Other forms of a section, and words that are no keys.|\
    turn = { raw = [0, 500] }\narm1 = { raw = [0, 999] }\n \
        => config range: line 3: raw of arm1 is out of range: it takes two numbers from 0 to 65535, the \
        second greater by 1000 or more\n|\
    arm1 = { # raw\n  tol = 5,\n  raw = [\n    0, 999] }\n \
        => config range: line 4: raw of arm1 is out of range: it takes two numbers from 0 to 65535, the \
        second greater by 1000 or more\n|\
    [ \"turn\" ]\r\n# raw = [0, 1]\r\ntol = 5 # raw\r\n'raw' = [0, 499]\r\n \
        => config range: line 5: raw of turn is out of range: it takes two numbers from 0 to 65535, the \
        second greater by 500 or more\n|\
    schedule = \"\"\"\\\n\n\"\"\"\n\"turn\" . 'tol' = 0\n \
        => config range: line 5: tol of turn is out of range: it takes 1 to 10\n|\
    [arm1]\npoints = [ # ] \"\n  [0, 0], # '''\n  [4000, 1000],\n]\n[turn]\ntol = 0\n \
        => config range: line 8: tol of turn is out of range: it takes 1 to 10\n";
