//! The pieces that a picture is made of.

ghost use Rattle.std.specs.Prelude.{◌≡◌};
ghost use Rattle.cell_picture.specs.Columns as columns;

use crate::values::Value;
use cell_types::Zone;

/// The beginning of a picture.
pub const PICTURE_HEAD: &str = "\
<svg xmlns=\"http://www.w3.org/2000/svg\" viewBox=\"0 50 790 425\" font-family=\"sans-serif\" \
font-size=\"15\"><title>The production cell: plates go round</title>\
<rect y=\"50\" width=\"790\" height=\"425\" rx=\"8\" fill=\"#fff\"/>";

/// The end of a picture: the names of machines and zones, and what colours mean.
pub const PICTURE_TAIL: &str = "\
<g fill=\"#16202c\" font-weight=\"bold\"><text x=\"470\" y=\"98\">feed belt</text>\
<text x=\"312\" y=\"90\">table</text><text x=\"350\" y=\"255\">robot</text>\
<text x=\"82\" y=\"196\">press</text><text x=\"470\" y=\"412\">deposit belt</text>\
<text x=\"590\" y=\"255\">crane</text></g><g fill=\"#55606c\" text-anchor=\"middle\">\
<text x=\"410\" y=\"102\">z1</text><text x=\"268\" y=\"150\">z2</text>\
<text x=\"104\" y=\"314\">z3</text><text x=\"280\" y=\"373\">z4</text>\
<text x=\"680\" y=\"422\">z5</text><text x=\"680\" y=\"88\">z6</text></g>\
<g fill=\"#55606c\" font-size=\"14\"><text x=\"16\" y=\"78\">A zone has the colour of</text>\
<text x=\"16\" y=\"96\">its owner, grey if it is free</text></g></svg>\n";

/// A piece of a picture.
#[derive(Clone, Copy)]
pub(crate) enum Piece {
    /// A text.
    Text(&'static str),
    /// How the attribute with this name of the element that is open changes.
    Attribute(&'static str, Value),
    /// How the element that is open is moved or turned.
    Transform(&'static str, Value),
}

/// The machines and zones, each machine seen from above; then the table, the press and the gripper from the side.
const MACHINES: [Piece; 59] = [
    Piece::Text(
        r##"<rect x="362" y="111" width="354" height="42" rx="8" fill="#e4e8ed" stroke="#07b">"##,
    ),
    Piece::Attribute("stroke-width", Value::FeedEdge),
    Piece::Text(r##"</rect><rect x="318" y="347" width="398" height="42" rx="8""##),
    Piece::Text(r##" fill="#e4e8ed" stroke="#c7a">"##),
    Piece::Attribute("stroke-width", Value::DepositEdge),
    Piece::Text(r##"</rect>"##),
    Piece::Text(r##"<circle cx="370" cy="132" r="34" opacity=".5">"##),
    Piece::Attribute("fill", Value::OwnerColour(Zone::Z1)),
    Piece::Text(r##"</circle>"##),
    Piece::Text(r##"<circle cx="310" cy="167" r="30" opacity=".5">"##),
    Piece::Attribute("fill", Value::OwnerColour(Zone::Z2)),
    Piece::Text(r##"</circle>"##),
    Piece::Text(r##"<circle cx="104" cy="250" r="46" opacity=".5">"##),
    Piece::Attribute("fill", Value::OwnerColour(Zone::Z3)),
    Piece::Text(r##"</circle>"##),
    Piece::Text(r##"<circle cx="330" cy="368" r="40" opacity=".5">"##),
    Piece::Attribute("fill", Value::OwnerColour(Zone::Z4)),
    Piece::Text(r##"</circle>"##),
    Piece::Text(r##"<circle cx="680" cy="368" r="37" opacity=".5">"##),
    Piece::Attribute("fill", Value::OwnerColour(Zone::Z5)),
    Piece::Text(r##"</circle>"##),
    Piece::Text(r##"<circle cx="680" cy="132" r="37" opacity=".5">"##),
    Piece::Attribute("fill", Value::OwnerColour(Zone::Z6)),
    Piece::Text(r##"</circle>"##),
    Piece::Text(
        r##"<circle cx="330" cy="132" r="29" fill="#fff" stroke="#0a7" stroke-width="3"/>"##,
    ),
    Piece::Text(
        r##"<g transform="translate(330 132)"><path d="M19 0h10" stroke="#333" stroke-width="6">"##,
    ),
    Piece::Transform("rotate", Value::TableTurn),
    Piece::Text(r##"</path></g><path d="M280 80v48" stroke="#bbb" stroke-width="7"/>"##),
    Piece::Text(r##"<rect x="272" width="17" height="8" rx="2" fill="#0a7">"##),
    Piece::Attribute("y", Value::TableHeight),
    Piece::Text(r##"</rect>"##),
    Piece::Text(r##"<rect x="70" y="216" width="68" height="68" rx="6" fill="#fff""##),
    Piece::Text(r##" stroke="#d50" stroke-width="3"/>"##),
    Piece::Text(r##"<path d="M63 356v102" stroke="#bbb" stroke-width="14"/>"##),
    Piece::Text(r##"<rect x="24" y="342" width="78" height="14" rx="3" fill="#55606c"/>"##),
    Piece::Text(r##"<rect x="24" width="78" height="10" rx="3" fill="#d50">"##),
    Piece::Attribute("y", Value::PressHeight),
    Piece::Text(r##"</rect>"##),
    Piece::Text(r##"<g transform="translate(262 250)"><g>"##),
    Piece::Transform("rotate", Value::RobotTurn),
    Piece::Text(r##"<g transform="rotate(-90)">"##),
    Piece::Text(r##"<rect width="70" y="-7" height="14" rx="7" fill="#ea0"/><g>"##),
    Piece::Transform("translate", Value::Arm2),
    Piece::Text(r##"<rect x="-20" width="90" y="-7" height="14" rx="7" fill="#ea0"/>"##),
    Piece::Text(r##"<circle cx="70" r="18" fill="none" stroke="#ea0" stroke-width="3"/></g>"##),
    Piece::Text(r##"</g>"##),
    Piece::Text(r##"<rect width="70" y="-9" height="18" rx="9" fill="#ea0"/><g>"##),
    Piece::Transform("translate", Value::Arm1),
    Piece::Text(r##"<rect x="-20" width="90" y="-9" height="18" rx="9" fill="#ea0"/>"##),
    Piece::Text(r##"<circle cx="70" r="18" fill="none" stroke="#ea0" stroke-width="3"/></g>"##),
    Piece::Text(r##"</g><circle r="24" fill="#fff" stroke="#ea0" stroke-width="5"/></g>"##),
    Piece::Text(r##"<path d="M680 98v304" stroke="#55606c" stroke-width="3"/><g>"##),
    Piece::Transform("translate", Value::CraneWay),
    Piece::Text(
        r##"<rect x="653" y="357" width="80" height="22" rx="5" fill="#5be" opacity=".6"/>"##,
    ),
    Piece::Text(
        r##"<circle cx="680" cy="368" r="19" fill="none" stroke="#5be" stroke-width="3"/></g>"##,
    ),
    Piece::Text(r##"<path d="M754 176v140" stroke="#bbb" stroke-width="7"/>"##),
    Piece::Text(r##"<rect x="746" width="17" height="8" rx="2" fill="#5be">"##),
    Piece::Attribute("y", Value::GripperHeight),
    Piece::Text(r##"</rect>"##),
];

/// A plate.
const PLATE: [Piece; 10] = [
    Piece::Text(r##"<g>"##),
    Piece::Transform("translate", Value::PlateShift),
    Piece::Text(r##"<g transform="translate(262 250)"><g>"##),
    Piece::Transform("rotate", Value::PlateAngle),
    Piece::Text(r##"<g>"##),
    Piece::Transform("translate", Value::PlateReach),
    Piece::Text(r##"<circle r="14" fill="#dfe4ea" stroke="#16202c" stroke-width="2"/>"##),
    Piece::Text(r##"<circle r="12" fill="#7a4b00">"##),
    Piece::Attribute("opacity", Value::PlateForged),
    Piece::Text(r##"</circle></g></g></g></g>"##),
];

/// The pieces of the machines and zones.
pub(crate) fn machines() -> [Piece; 59]
    ensures { columns.values_in result ≡ columns.machine_values }
{
    MACHINES
}

/// The pieces of a plate.
pub(crate) fn plate() -> [Piece; 10]
    ensures { columns.values_in result ≡ columns.plate_values }
{
    PLATE
}
