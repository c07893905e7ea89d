ghost use Rattle.std.specs.Prelude.{◌≡◌};
ghost use Rattle.lapi_picture.specs.Fixed.{fixed_text};

/// The fixed texts of a chart.
#[derive(Clone, Copy, Debug)]
pub enum Fixed {
    /// What a chart begins with, before its width.
    Frame,
    FrameEnd,
    /// For those who hear the picture, before the counts.
    Title,
    Columns,
    Described,
    /// How each class of shapes looks.
    Style,
    /// The shape of each mark, round the point where it stands.
    Marks,
    ReplyMarks,
    StatementMarks,
    MessageMarks,
    JobMarks,
    /// What the lines mean, above the columns.
    Legend,
    SheetEnd,
    /// A line, before its class.
    Line,
    /// A mark, before its name.
    Mark,
    NameEnd,
    Bar,
    ShapeEnd,
    Text,
    TextEnd,
}

impl Fixed {
    #[tactic(auto, unfolding(crate::specs::Fixed::fixed_text))]
    pub fn text(self) -> &'static str
        ensures { result.now ≡ fixed_text self }
    {
        match self {
            Fixed::Frame => "<svg xmlns=\"http://www.w3.org/2000/svg\"",
            Fixed::FrameEnd => " role=\"img\" aria-labelledby=\"title desc\">\n",
            Fixed::Title => {
                "<title id=\"title\">Sequence chart of a run of lapi</title>\n<desc id=\"desc\">"
            }
            Fixed::Columns => " tasks as columns, ",
            Fixed::Described => {
                " rows from top to bottom: lines of the schedule by number, and what each did. A solid arrow is data that arrived, a dashed one an acknowledgement, a dotted one a packet that was cut. A line to a cross is a packet that never arrived. A bar is a completion handler that runs.</desc>\n"
            }
            Fixed::Style => {
                "<style>\n.page{fill:#fff}\ntext{font:12px monospace;fill:#111;stroke:#fff;stroke-width:4px;paint-order:stroke}\n.life{stroke:#bbb}\n.data{stroke:#0b5394;stroke-width:1.5;marker-end:url(#tip)}\n.ack{stroke:#a64d00;stroke-dasharray:7 4;marker-end:url(#tip)}\n.cut{stroke:#990000;stroke-dasharray:2 3;marker-end:url(#tip)}\n.lost{stroke:#990000;stroke-width:1.5;marker-end:url(#cross)}\n.job{fill:#ccc;stroke:#333}\n</style>\n"
            }
            Fixed::Marks => {
                "<defs>\n<marker id=\"tip\" markerUnits=\"userSpaceOnUse\" markerWidth=\"10\" markerHeight=\"8\" refX=\"10\" refY=\"4\" orient=\"auto\"><path d=\"M0 0L10 4L0 8z\" fill=\"#111\"/></marker>\n<marker id=\"cross\" markerUnits=\"userSpaceOnUse\" markerWidth=\"12\" markerHeight=\"12\" refX=\"6\" refY=\"6\"><path d=\"M1 1L11 11M11 1L1 11\" stroke=\"#990000\" stroke-width=\"2\"/></marker>\n"
            }
            Fixed::ReplyMarks => {
                "<path id=\"did\" d=\"M-5 0H5\" stroke=\"#111\" stroke-width=\"2\"/>\n<path id=\"blocked\" d=\"M-5 -3H5M-5 3H5\" stroke=\"#990000\" stroke-width=\"2\"/>\n<path id=\"absent\" d=\"M-4 -4L4 4\" stroke=\"#111\" stroke-width=\"2\"/>\n<path id=\"idle\" d=\"M-2 0H2\" stroke=\"#111\" stroke-width=\"2\"/>\n<path id=\"busy\" d=\"M-5 -3H5V3H-5z\" fill=\"none\" stroke=\"#111\"/>\n"
            }
            Fixed::StatementMarks => {
                "<path id=\"bad\" d=\"M-5 -5L5 5M5 -5L-5 5\" stroke=\"#990000\" stroke-width=\"2\"/>\n<circle id=\"issue\" r=\"4\" fill=\"#fff\" stroke=\"#111\"/>\n<path id=\"refuse\" d=\"M-4 -4H4V4H-4zM-4 -4L4 4\" fill=\"#fff\" stroke=\"#990000\"/>\n<path id=\"enter\" d=\"M-4 -4L4 0L-4 4z\" fill=\"#fff\" stroke=\"#111\"/>\n<path id=\"pass\" d=\"M0 -5L5 0L0 5L-5 0z\" fill=\"#111\"/>\n"
            }
            Fixed::MessageMarks => {
                "<path id=\"copy\" d=\"M-4 -4H4V4H-4z\" fill=\"#fff\" stroke=\"#111\"/>\n<path id=\"head\" d=\"M-5 4L0 -5L5 4z\" fill=\"#fff\" stroke=\"#111\"/>\n<circle id=\"land\" r=\"4\" fill=\"#111\"/>\n<path id=\"begin\" d=\"M-5 0H5M0 0V5\" stroke=\"#111\" stroke-width=\"2\"/>\n<path id=\"end\" d=\"M-5 0H5M0 0V-5\" stroke=\"#111\" stroke-width=\"2\"/>\n<path id=\"counter\" d=\"M-3 0H3M0 -3V3\" stroke=\"#111\"/>\n"
            }
            Fixed::JobMarks => {
                "<path id=\"sent\" d=\"M-4 0H4M1 -3L4 0L1 3\" fill=\"none\" stroke=\"#111\"/>\n</defs>\n<rect class=\"page\" width=\"100%\" height=\"100%\"/>\n"
            }
            Fixed::Legend => {
                "<text x=\"8\" y=\"20\">solid arrow: data; dashed: acknowledgement; dotted: cut; to a cross: never arrived; bar: a handler runs</text>\n"
            }
            Fixed::SheetEnd => "</svg>\n",
            Fixed::Line => "<line class=\"",
            Fixed::Mark => "<use href=\"#",
            Fixed::NameEnd => "\"",
            Fixed::Bar => "<rect class=\"job\" width=\"3\"",
            Fixed::ShapeEnd => "/>\n",
            Fixed::Text => "<text",
            Fixed::TextEnd => "</text>\n",
        }
    }
}
