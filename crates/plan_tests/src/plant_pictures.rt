//! The picture of a plant on two words, whole but for its style and for zones like the first.

use super::answered_examples::PRESS;
use super::doubles::are_answered;

/// A crane and a sweeper: ten bays fill word 0, and the yard is on word 1, with both places. Each word keeps one hazard
/// apart, and none the third: the status is 0 all the same. The picture was made by a program of its own from what the
/// definitions say of lanes, rows and columns.
const OF_TWO_WORDS: &str = "\
0: ./plan draw --words
=>
[[machine]]
name = \"north\"
places = [\"hook\"]
sources = [\"hook\"]

[[machine]]
name = \"south\"
places = [\"floor\"]
poses = [{ name = \"clear\", gives = { yard = \"openin\" } }]

@10 [[zone]]
name = \"bay#\"
host = \"north\"
guest = \"south\"

@[[zone]]
name = \"yard\"
host = \"south\"
guest = \"north\"
inward = [\"hook\", \"floor\"]

[[motor]]
name = \"carry\"
machine = \"north\"
holds = { bay10 = \"any\" }

[[motor]]
name = \"lower\"
machine = \"north\"
holds = { yard = \"any\" }

[[motor]]
name = \"haul\"
machine = \"south\"
holds = { bay10 = \"any\" }

[[motor]]
name = \"sweep\"
machine = \"south\"
holds = { yard = \"any\" }

[[motor]]
name = \"door\"
machine = \"south\"

[[hazard]]
name = \"carried into the load\"
motors = [\"carry\", \"haul\"]

[[hazard]]
name = \"lowered onto the broom\"
motors = [\"lower\", \"sweep\"]

[[hazard]]
name = \"doors\"
motors = [\"carry\", \"door\"]
start,
=>
<svg xmlns=\"http://www.w3.org/2000/svg\" width=\"2490\" height=\"552\" viewBox=\"0 0 2490 552\" \
    font-family=\"monospace\">
<style>
[..]
</defs>
<rect class=\"paper\" x=\"0\" y=\"0\" width=\"2490\" height=\"552\"/>
<style>
line.word { stroke: #888888; stroke-width: 3; }
text.word { fill: #666666; }
</style>
<rect class=\"lane\" x=\"20\" y=\"230\" width=\"2490\" height=\"102\"/>
<rect class=\"machine\" x=\"20\" y=\"230\" width=\"260\" height=\"102\"/>
<text class=\"name\" x=\"30\" y=\"256\" font-size=\"22\">north</text>
<rect class=\"lane\" x=\"20\" y=\"346\" width=\"2490\" height=\"122\"/>
<rect class=\"machine\" x=\"20\" y=\"346\" width=\"260\" height=\"122\"/>
<text class=\"name\" x=\"30\" y=\"372\" font-size=\"22\">south</text>
<circle class=\"place\" cx=\"38\" cy=\"274\" r=\"5\"/>
<text class=\"place\" x=\"52\" y=\"278\" font-size=\"13\">hook</text>
<line class=\"source\" x1=\"2\" y1=\"270\" x2=\"32\" y2=\"270\"/>
<circle class=\"place\" cx=\"38\" cy=\"390\" r=\"5\"/>
<text class=\"place\" x=\"52\" y=\"394\" font-size=\"13\">floor</text>
<circle class=\"motor\" cx=\"38\" cy=\"294\" r=\"5\"/>
<text class=\"motor\" x=\"52\" y=\"298\" font-size=\"13\">carry</text>
<circle class=\"motor\" cx=\"38\" cy=\"314\" r=\"5\"/>
<text class=\"motor\" x=\"52\" y=\"318\" font-size=\"13\">lower</text>
<circle class=\"motor\" cx=\"38\" cy=\"410\" r=\"5\"/>
<text class=\"motor\" x=\"52\" y=\"414\" font-size=\"13\">haul</text>
<circle class=\"motor\" cx=\"38\" cy=\"430\" r=\"5\"/>
<text class=\"motor\" x=\"52\" y=\"434\" font-size=\"13\">sweep</text>
<circle class=\"motor\" cx=\"38\" cy=\"450\" r=\"5\"/>
<text class=\"motor\" x=\"52\" y=\"454\" font-size=\"13\">door</text>
<line class=\"word\" x1=\"292\" y1=\"226\" x2=\"292\" y2=\"472\"/>
<text class=\"zone\" transform=\"translate(310 220) rotate(-45)\" font-size=\"15\">bay1</text>
<line class=\"zone\" x1=\"310\" y1=\"248\" x2=\"310\" y2=\"364\"/>
<rect class=\"host\" x=\"303\" y=\"241\" width=\"14\" height=\"14\"/>
<text class=\"party\" x=\"352\" y=\"252\" font-size=\"13\">north</text>
<circle class=\"guest\" cx=\"310\" cy=\"364\" r=\"7\"/>
<text class=\"party\" x=\"352\" y=\"368\" font-size=\"13\">south</text>
<text class=\"word\" transform=\"translate(358 220) rotate(-45)\" font-size=\"13\">word 0</text>
[..]
<text class=\"zone\" transform=\"translate(1570 220) rotate(-45)\" font-size=\"15\">bay10</text>
<line class=\"zone\" x1=\"1570\" y1=\"248\" x2=\"1570\" y2=\"364\"/>
<rect class=\"host\" x=\"1563\" y=\"241\" width=\"14\" height=\"14\"/>
<text class=\"party\" x=\"1612\" y=\"252\" font-size=\"13\">north</text>
<circle class=\"guest\" cx=\"1570\" cy=\"364\" r=\"7\"/>
<text class=\"party\" x=\"1612\" y=\"368\" font-size=\"13\">south</text>
<text class=\"word\" transform=\"translate(1618 220) rotate(-45)\" font-size=\"13\">word 0</text>
<line class=\"word\" x1=\"1692\" y1=\"226\" x2=\"1692\" y2=\"472\"/>
<text class=\"zone\" transform=\"translate(1710 220) rotate(-45)\" font-size=\"15\">yard</text>
<line class=\"zone\" x1=\"1710\" y1=\"364\" x2=\"1710\" y2=\"248\"/>
<rect class=\"host\" x=\"1703\" y=\"357\" width=\"14\" height=\"14\"/>
<text class=\"party\" x=\"1752\" y=\"368\" font-size=\"13\">south</text>
<circle class=\"guest\" cx=\"1710\" cy=\"248\" r=\"7\"/>
<text class=\"party\" x=\"1752\" y=\"252\" font-size=\"13\">north</text>
<line class=\"way\" x1=\"1728\" y1=\"274\" x2=\"1728\" y2=\"390\"/>
<text class=\"end\" x=\"1752\" y=\"278\" font-size=\"13\">hook</text>
<text class=\"end\" x=\"1752\" y=\"394\" font-size=\"13\">floor</text>
<text class=\"word\" transform=\"translate(1758 220) rotate(-45)\" font-size=\"13\">word 1</text>
<text class=\"hazard\" transform=\"translate(1850 220) rotate(-45)\" font-size=\"15\">carried into the load</text>
<text class=\"kept\" transform=\"translate(1874 220) rotate(-45)\" font-size=\"13\">kept apart by bay10 on word \
    0</text>
<line class=\"hazard\" x1=\"1850\" y1=\"294\" x2=\"1850\" y2=\"410\"/>
<text class=\"danger\" x=\"1862\" y=\"298\" font-size=\"13\">carry</text>
<text class=\"danger\" x=\"1862\" y=\"414\" font-size=\"13\">haul</text>
<text class=\"hazard\" transform=\"translate(1990 220) rotate(-45)\" font-size=\"15\">lowered onto the broom</text>
<text class=\"kept\" transform=\"translate(2014 220) rotate(-45)\" font-size=\"13\">kept apart by yard on word \
    1</text>
<line class=\"hazard\" x1=\"1990\" y1=\"314\" x2=\"1990\" y2=\"430\"/>
<text class=\"danger\" x=\"2002\" y=\"318\" font-size=\"13\">lower</text>
<text class=\"danger\" x=\"2002\" y=\"434\" font-size=\"13\">sweep</text>
<text class=\"hazard\" transform=\"translate(2130 220) rotate(-45)\" font-size=\"15\">doors</text>
<text class=\"unkept\" transform=\"translate(2154 220) rotate(-45)\" font-size=\"13\">NOT kept apart on any \
    word</text>
<line class=\"hazard\" x1=\"2130\" y1=\"294\" x2=\"2130\" y2=\"450\"/>
<text class=\"danger\" x=\"2142\" y=\"298\" font-size=\"13\">carry</text>
<text class=\"danger\" x=\"2142\" y=\"454\" font-size=\"13\">door</text>
<text class=\"legend\" x=\"20\" y=\"496\" font-size=\"12\">Box: machine. Rings: places, arrows from or to \
    outside. Dots: motors.</text>
<text class=\"legend\" x=\"20\" y=\"512\" font-size=\"12\">A column is a zone: host (square), guest (ring), \
    ways of plates.</text>
<text class=\"legend\" x=\"20\" y=\"528\" font-size=\"12\">Dashed: motors that are never to run both, and what \
    keeps them apart.</text>
<text class=\"legend\" x=\"20\" y=\"544\" font-size=\"12\">A grey line begins the columns of a word, whose \
    number they have.</text>
</svg>
";

/// A plant that is one plan's is on one word, and says so.
const OF_ONE_WORD: &str = "\
0: ./plan draw --words
=>
[[motor]]
name = \"ram\"
machine = \"press\"
holds = { interior = \"moving\" }

[[motor]]
name = \"arm\"
machine = \"loader\"
holds = { interior = \"any\" }

[[hazard]]
name = \"arm crushed\"
motors = [\"ram\", \"arm\"]
=>
<svg [..]
<line class=\"word\" x1=\"292\" y1=\"226\" x2=\"292\" y2=\"412\"/>
<text class=\"zone\" transform=\"translate(310 220) rotate(-45)\" font-size=\"15\">interior</text>
[..]
<text class=\"word\" transform=\"translate(358 220) rotate(-45)\" font-size=\"13\">word 0</text>
<text class=\"hazard\" transform=\"translate(450 220) rotate(-45)\" font-size=\"15\">arm crushed</text>
<text class=\"kept\" transform=\"translate(474 220) rotate(-45)\" font-size=\"13\">kept apart by interior \
    on word 0</text>
[..]
</svg>
--
1: ./plan draw --words
=>
[[zone]]
=>
fault plan line [..]: zone 2: [..]
--
2: ./plan draw --words --words
2: ./plan draw --words --page
2: ./plan draw --words --word 0
2: ./plan draw --word 0 --words
2: ./plan draw --memory 5 --words
=>
=>
error: the first argument is [..]
";

#[test]
fn draws_plants(rt: HostRuntime) {
    are_answered(&rt, rt.alloc(), "", OF_TWO_WORDS);
    are_answered(&rt, rt.alloc(), PRESS, OF_ONE_WORD);
}
