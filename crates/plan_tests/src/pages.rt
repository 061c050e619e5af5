//! What `explore --page` and `run --page` write: of each page the data and the lines. Those of explorations were made
//! by `tools/plan_film`.

use super::answered_examples::PRESS;
use super::at_work;
use super::doubles::are_answered;
use super::going::JUNCTION;

/// A standstill, and where there is no page.
const OF_PRESS: &str = "\
1: ./plan explore --page
=>
start,11
=>
<!doctype html>
[..]<script id=\"plan\" type=\"application/json\">
{\"note\": \"a standstill after 2 turns, and no fewer\",
\"machines\": [\"loader\", \"press\"],
\"places\": [{\"name\": \"hand\", \"keeper\": 0}, {\"name\": \"die\", \"keeper\": 1}],
\"zones\": [{\"name\": \"interior\", \"host\": 1, \"guest\": 0, \"inward\": [0, 1], \"outward\": [1, 0], \
    \"postures\": [\"closed\", \"moving\", \"openin\", \"openout\"]}],
\"motors\": [],
\"programs\": [[\"give interior\", \"take interior\", \"release interior\"], [\"claim interior\", \
    \"pose travelling\", \"pose load\", \"yield interior\", \"take interior\", \"pose travelling\", \
    \"pose closed\", \"pose travelling\", \"pose unload\", \"give interior\"]]}
</script>[..]<script id=\"lines\" type=\"text/plain\">
start;60
press;claim interior;done;e1
press;pose travelling;done;169
loader;give interior;notowner press;
press;pose load;placefull;
loader;give interior;notowner press;
press;pose load;placefull;
</script>[..]</html>
--
1: ./plan explore --page
1: ./plan run --turns 10 --page
=>
=>
fault nostart
--
1: ./plan explore --page
=>
start,1
=>
fault badstart
";

/// The first machine that starves has the page.
const OF_JUNCTION: &str = "\
1: ./plan explore --page
=>
start,
=>
<!doctype html>
[..]<script id=\"plan\" type=\"application/json\">
{\"note\": \"a fair order in which points starves\",
[..]</html>
";

/// A machine that keeps plates, and never moves them: no motor runs where it is known, and lines wait and run.
const HOIST: &str = "\
[[machine]]
name = \"hoist\"
places = [\"hook\", \"floor\"]
sensors = [\"up\", \"down\"]
poses = [{ name = \"high\", gives = {} }, { name = \"low\", gives = {} }]
program = [\"run raising until up\", \"pose high\", \"run lowering brake until down\", \"await up\", \"pose low\"]

[[motor]]
name = \"raising\"
machine = \"hoist\"

[[motor]]
name = \"lowering\"
machine = \"hoist\"

[[motor]]
name = \"brake\"
machine = \"hoist\"
full = [\"hook\"]
";

/// Its plates rest.
const OF_HOIST: &str = "\
1: ./plan explore --page
=>
start,10,7
=>
<!doctype html>
[..]<script id=\"plan\" type=\"application/json\">
{\"note\": \"a fair order in which no plate moves\",
\"machines\": [\"hoist\"],
\"places\": [{\"name\": \"hook\", \"keeper\": 0}, {\"name\": \"floor\", \"keeper\": 0}],
\"zones\": [],
\"motors\": [{\"name\": \"raising\", \"machine\": 0, \"mask\": \"0\", \"pattern\": \"0\"}, \
    {\"name\": \"lowering\", \"machine\": 0, \"mask\": \"0\", \"pattern\": \"0\"}, \
    {\"name\": \"brake\", \"machine\": 0, \"mask\": \"1\", \"pattern\": \"1\"}],
\"programs\": [[\"run raising until up\", \"pose high\", \"run lowering brake until down\", \"await up\", \
    \"pose low\"]]}
</script>[..]<script id=\"lines\" type=\"text/plain\">
start;1
hoist;pose high;done;5
hoist;pose low;done;9
hoist;pose high;done;d
hoist;pose low;done;11
hoist;pose high;done;15
hoist;pose low;done;19
hoist;pose high;done;1d
hoist;pose low;done;21
hoist;pose high;done;25
hoist;pose low;done;29
hoist;pose high;done;2d
hoist;pose low;done;31
hoist;pose high;done;35
hoist;pose low;done;39
hoist;pose high;done;3d
hoist;pose low;done;41
</script>[..]</html>
";

/// A plan that is none.
const OF_NONE: &str = "\
1: ./plan explore --page
=>
[[machine]]
start,
=>
fault plan line 1: machine 1: name: it is missing
";

/// What one machine does is the same in each run.
const OF_RUN: &str = "\
0: ./plan run --turns 10 --page
=>
start,10,5
=>
<!doctype html>
[..]<script id=\"plan\" type=\"application/json\">
{\"note\": \"1 machine took 10 turns each, in threads of their own\",
\"machines\": [\"hoist\"],
\"places\": [{\"name\": \"hook\", \"keeper\": 0}, {\"name\": \"floor\", \"keeper\": 0}],
\"zones\": [],
\"motors\": [{\"name\": \"raising\", \"machine\": 0, \"mask\": \"0\", \"pattern\": \"0\"}, \
    {\"name\": \"lowering\", \"machine\": 0, \"mask\": \"0\", \"pattern\": \"0\"}],
\"programs\": [[\"run raising until up\", \"pose high\", \"run lowering until down\", \"pose low\"]]}
</script>[..]<script id=\"lines\" type=\"text/plain\">
start;15
hoist;pose high;done;19
hoist;pose low;done;1d
</script>[..]</html>
";

/// A machine that is stopped.
const OF_JUMPER: &str = "\
1: ./plan run --turns 10 --page
=>
start,
=>
<!doctype html>
[..]<script id=\"plan\" type=\"application/json\">
{\"note\": \"2 machines took 10 turns each, in threads of their own; press was stopped by jump\",
\"machines\": [\"loader\", \"press\"],
\"places\": [],
\"zones\": [{\"name\": \"interior\", \"host\": 1, \"guest\": 0, \"inward\": null, \"outward\": null, \
    \"postures\": [\"closed\"]}],
\"motors\": [],
\"programs\": [[], [\"claim interior\", \"pose shut\", \"release interior\"]]}
</script>[..]<script id=\"lines\" type=\"text/plain\">
start;0
press;claim interior;done;5
press;pose shut;jump;
</script>[..]</html>
";

#[test]
fn pages_have_data_and_lines(rt: HostRuntime) {
    are_answered(&rt, rt.alloc(), PRESS, OF_PRESS);
    are_answered(&rt, rt.alloc(), JUNCTION, OF_JUNCTION);
    are_answered(&rt, rt.alloc(), HOIST, OF_HOIST);
    are_answered(&rt, rt.alloc(), "", OF_NONE);
    are_answered(&rt, rt.alloc(), at_work::HOIST, OF_RUN);
    are_answered(&rt, rt.alloc(), at_work::JUMPER, OF_JUMPER);
}
