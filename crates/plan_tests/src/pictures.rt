//! The picture of a press, whole.

/// The ram and the arm of the press, which are never to run both; and the picture, made by a program of its own from
/// what the definitions say of lanes, rows and columns.
pub const OF_HAZARD: &str = "\
0: ./plan draw
=>

[[motor]]
name = \"ram\"
machine = \"press\"
holds = { interior = \"moving\" }

[[motor]]
name = \"arm_in_press\"
machine = \"loader\"
holds = { interior = \"any\" }

[[hazard]]
name = \"<arm> & 'ram'\"
motors = [\"ram\", \"arm_in_press\"]
=>
<svg xmlns=\"http://www.w3.org/2000/svg\" width=\"810\" height=\"492\" viewBox=\"0 0 810 492\" \
    font-family=\"monospace\">
<style>
text { fill: #222222; }
.paper { fill: #ffffff; }
.lane { fill: #f0f0f0; }
.machine { fill: #ffffff; stroke: #222222; }
.name, text.zone, text.hazard { font-weight: bold; }
line.zone { stroke: #222222; stroke-width: 2; }
.host { fill: #222222; }
.guest { fill: #ffffff; stroke: #222222; stroke-width: 2; }
.way { stroke: #1450a0; stroke-width: 2; marker-start: url(#from); marker-end: url(#to); }
circle.place { fill: #ffffff; stroke: #1450a0; stroke-width: 2; }
.source, .sink { stroke: #1450a0; stroke-width: 2; marker-end: url(#to); }
text.place, .end { fill: #1450a0; }
circle.motor, text.motor, .danger, text.hazard, .unkept { fill: #b01818; }
line.hazard { stroke: #b01818; stroke-width: 2; stroke-dasharray: 6 4; }
line.hazard { marker-start: url(#danger); marker-end: url(#danger); }
.kept { fill: #106030; }
.unkept { font-weight: bold; }
</style>
<defs>
<marker id=\"from\" viewBox=\"0 0 10 10\" refX=\"5\" refY=\"5\" markerWidth=\"3\" markerHeight=\"3\">
<circle cx=\"5\" cy=\"5\" r=\"5\" fill=\"#1450a0\"/></marker>
<marker id=\"to\" viewBox=\"0 0 10 10\" refX=\"9\" refY=\"5\" markerWidth=\"5\" markerHeight=\"5\" orient=\"auto\">
<path d=\"M0 0L10 5L0 10z\" fill=\"#1450a0\"/></marker>
<marker id=\"danger\" viewBox=\"0 0 10 10\" refX=\"5\" refY=\"5\" markerWidth=\"5\" markerHeight=\"5\">
<circle cx=\"5\" cy=\"5\" r=\"5\" fill=\"#b01818\"/></marker>
</defs>
<rect class=\"paper\" x=\"0\" y=\"0\" width=\"810\" height=\"492\"/>
<rect class=\"lane\" x=\"20\" y=\"230\" width=\"810\" height=\"82\"/>
<rect class=\"machine\" x=\"20\" y=\"230\" width=\"260\" height=\"82\"/>
<text class=\"name\" x=\"30\" y=\"256\" font-size=\"22\">loader</text>
<rect class=\"lane\" x=\"20\" y=\"326\" width=\"810\" height=\"82\"/>
<rect class=\"machine\" x=\"20\" y=\"326\" width=\"260\" height=\"82\"/>
<text class=\"name\" x=\"30\" y=\"352\" font-size=\"22\">press</text>
<circle class=\"place\" cx=\"38\" cy=\"274\" r=\"5\"/>
<text class=\"place\" x=\"52\" y=\"278\" font-size=\"13\">hand</text>
<circle class=\"place\" cx=\"38\" cy=\"370\" r=\"5\"/>
<text class=\"place\" x=\"52\" y=\"374\" font-size=\"13\">die</text>
<circle class=\"motor\" cx=\"38\" cy=\"390\" r=\"5\"/>
<text class=\"motor\" x=\"52\" y=\"394\" font-size=\"13\">ram</text>
<circle class=\"motor\" cx=\"38\" cy=\"294\" r=\"5\"/>
<text class=\"motor\" x=\"52\" y=\"298\" font-size=\"13\">arm_in_press</text>
<text class=\"zone\" transform=\"translate(310 220) rotate(-45)\" font-size=\"15\">interior</text>
<line class=\"zone\" x1=\"310\" y1=\"344\" x2=\"310\" y2=\"248\"/>
<rect class=\"host\" x=\"303\" y=\"337\" width=\"14\" height=\"14\"/>
<text class=\"party\" x=\"352\" y=\"348\" font-size=\"13\">press</text>
<circle class=\"guest\" cx=\"310\" cy=\"248\" r=\"7\"/>
<text class=\"party\" x=\"352\" y=\"252\" font-size=\"13\">loader</text>
<line class=\"way\" x1=\"328\" y1=\"274\" x2=\"328\" y2=\"370\"/>
<line class=\"way\" x1=\"342\" y1=\"370\" x2=\"342\" y2=\"274\"/>
<text class=\"end\" x=\"352\" y=\"278\" font-size=\"13\">hand</text>
<text class=\"end\" x=\"352\" y=\"374\" font-size=\"13\">die</text>
<text class=\"hazard\" transform=\"translate(450 220) rotate(-45)\" font-size=\"15\">&lt;arm&gt; &amp; \
    &#39;ram&#39;</text>
<text class=\"kept\" transform=\"translate(474 220) rotate(-45)\" font-size=\"13\">kept apart by interior</text>
<line class=\"hazard\" x1=\"450\" y1=\"390\" x2=\"450\" y2=\"294\"/>
<text class=\"danger\" x=\"462\" y=\"394\" font-size=\"13\">ram</text>
<text class=\"danger\" x=\"462\" y=\"298\" font-size=\"13\">arm_in_press</text>
<text class=\"legend\" x=\"20\" y=\"436\" font-size=\"12\">Box: machine. Rings: places, arrows from or to outside. \
    Dots: motors.</text>
<text class=\"legend\" x=\"20\" y=\"452\" font-size=\"12\">A column is a zone: host (square), guest (ring), ways of \
    plates.</text>
<text class=\"legend\" x=\"20\" y=\"468\" font-size=\"12\">Dashed: motors that are never to run both, and what \
    keeps them apart.</text>
</svg>
";
