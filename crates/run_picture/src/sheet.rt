//! The parts of the file that every picture of a run has.

/// The style of all shapes, light or dark, patterns, the ground, and the legend of the bars of lives that ended. What a
/// colour shows, a pattern or a border shows too.
pub const SHEET: &str = "<style>
text{fill:#1f2933;font-size:14px;pointer-events:none}line{pointer-events:none}
.title{font-size:24px;font-weight:600}.quiet,.caption,.number{fill:#52606d}.number{font-size:12px}.unit{text-anchor:end}.caption,.number{text-anchor:middle}
.task{font-size:13px;font-weight:600;paint-order:stroke;stroke:#fff;stroke-width:3px;stroke-linejoin:round}
.paper,.idle{fill:#fff}.idle{stroke:#cbd2d9}.lane{fill:#f4f6f9}.grid{stroke:#dde3e9}.axis{stroke:#7b8794;stroke-width:1.5}
.retired,.halted{fill:#cfe8d5;stroke:#2f6b4a}.squashed{fill:url(#hatched);stroke:#b0402a}.dropped{fill:url(#dotted);stroke:#7d5f10}
.unfinished{fill:#d8e4f5;stroke:#34588f;stroke-dasharray:5 3}.retired,.squashed,.dropped,.unfinished{stroke-width:1.5}.halted,.trapped{stroke-width:4}.trapped{fill:#fae3dc;stroke:#b0402a}.leads{fill:#34588f}
.share{stroke-width:0}.share,.wait{shape-rendering:crispEdges}.needs{fill:#d9822b}.turn{fill:url(#leaning)}.pass{fill:url(#level)}.squash{fill:#b0402a;stroke:#fff}
.instruction{stroke:#1f2933;stroke-width:1.6}.transfer{stroke:#52606d;stroke-width:1.3;marker-end:url(#head)}.fine{stroke-width:.6}.transfer.fine{marker-end:url(#small)}.instruction,.transfer,.hit{pointer-events:stroke}.hit{stroke:transparent;stroke-width:7}.head,.register{fill:#52606d}.register{font-size:12px}.shown{stroke:#b0402a;stroke-width:6}.said{fill:#b0402a}
.rose{fill:#fae3dc}.red{stroke:#e09a86}.sand{fill:#f6edd0}.ochre{fill:#a98a35}.mist{fill:#e4e9ee}.slate{stroke:#52606d}.lilac{fill:#eadcf8}.violet{stroke:#7a4fb0}
@media (prefers-color-scheme:dark){
text{fill:#e4e9ee}.quiet,.caption,.number{fill:#9aa7b4}.task{stroke:#1c2229}.paper,.idle{fill:#1c2229}.idle,.grid{stroke:#38424d}.lane{fill:#232b33}
.retired,.halted{fill:#214a33;stroke:#6fd198}.squashed{stroke:#ff9d94}.dropped{stroke:#d8b45a}.trapped{fill:#4a2220;stroke:#ff9d94}.leads{fill:#7fb0ff}.unfinished{fill:#22344f;stroke:#7fb0ff}.needs{fill:#f0a04b}.squash{fill:#ff9d94;stroke:#1c2229}
.instruction{stroke:#e4e9ee}.transfer{stroke:#9aa7b4}.head,.register{fill:#9aa7b4}.shown{stroke:#ff9d94}.said{fill:#ff9d94}
.rose{fill:#4a2220}.red{stroke:#b3564a}.sand{fill:#40361a}.mist{fill:#38424d}.slate{stroke:#c3ccd5}.lilac{fill:#3a2a52}.violet{stroke:#c9a2f5}
}
</style>
<defs>
<pattern id='hatched' width='7' height='7' patternUnits='userSpaceOnUse' patternTransform='rotate(45)'><path class='rose' d='M0 0H7V7H0Z'/><path class='red' d='M0 0V7' stroke-width='2.6'/></pattern>
<pattern id='dotted' width='7' height='7' patternUnits='userSpaceOnUse'><path class='sand' d='M0 0H7V7H0Z'/><circle class='ochre' cx='2' cy='2' r='1.2'/><circle class='ochre' cx='5.5' cy='5.5' r='1.2'/></pattern>
<pattern id='leaning' width='5' height='5' patternUnits='userSpaceOnUse' patternTransform='rotate(-45)'><path class='mist' d='M0 0H5V5H0Z'/><path class='slate' d='M1 0V5' stroke-width='2'/></pattern>
<pattern id='level' width='5' height='5' patternUnits='userSpaceOnUse'><path class='lilac' d='M0 0H5V5H0Z'/><path class='violet' d='M0 1H5' stroke-width='2'/></pattern>
<marker id='head' viewBox='0 0 8 8' refX='7' refY='4' markerWidth='7' markerHeight='7' markerUnits='userSpaceOnUse' orient='auto'><path class='head' d='M0 .8 7.4 4 0 7.2z'/></marker>
<marker id='small' viewBox='0 0 8 8' refX='7' refY='4' markerWidth='4' markerHeight='4' markerUnits='userSpaceOnUse' orient='auto'><path class='head' d='M0 .8 7.4 4 0 7.2z'/></marker>
</defs>
<path class='paper' d='M0 0H1280V9999H0Z'/>
<g>
<rect class='retired' x='88' y='94' width='28' height='16'/><text x='124' y='107'>retired</text>
<rect class='squashed' x='194' y='94' width='28' height='16'/><text x='230' y='107'>squashed</text>
<rect class='dropped' x='316' y='94' width='28' height='16'/><text x='352' y='107'>dropped</text>
";

/// What single events or steps look like.
pub const SINGLE_LEGEND: &str =
    "<rect class='unfinished' x='430' y='94' width='28' height='16'/><text x='466' y='107'>unfinished</text>
<rect class='halted' x='564' y='94' width='28' height='16'/><text x='600' y='107'>halted</text>
<rect class='trapped' x='662' y='94' width='28' height='16'/><text x='698' y='107'>trapped, unlisted</text>
<rect class='leads' x='838' y='101' width='28' height='3'/><text x='874' y='107'>head</text>
<path class='squash' d='M926 96h14l-7 11z'/><text x='948' y='107'>squash</text>
";

/// What the marks of events look like that have room.
pub const MARKS_LEGEND: &str =
    "<path class='instruction' d='M1018 97v10M1024 97v10M1030 97v10'/><text x='1040' y='107'>instruction</text>
<rect class='retired' x='1132' y='94' width='16' height='16'/><path class='transfer' d='M1140 97V110'/><text x='1156' y='107'>sent at exit</text>
";

/// What an arrow between units is, in a picture of events.
pub(crate) const ARROW_LEGEND: &str =
    "<path class='transfer' d='M608 120V137'/><text x='620' y='133'>register arrives</text>
";

/// What else is in a picture of stretches, which ends the legend of a picture of events, and what is not drawn.
pub(crate) const STRETCHES_LEGEND: &str =
    "<rect class='unfinished' x='430' y='94' width='28' height='16'/><text x='466' y='107'>unfinished, or halted</text>
<rect class='idle' x='630' y='94' width='28' height='16'/><text x='666' y='107'>no task</text>
<text class='quiet' x='756' y='107'>over 2,000 events, no instructions, registers or squashes are drawn</text>
";
