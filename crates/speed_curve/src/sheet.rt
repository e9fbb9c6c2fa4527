//! The part of the file that every picture has.

/// The root element, its title, the style of all elements, the legend, and the lines of the lower scale: all that comes
/// before the upper scale. What a
/// colour says, a form or a pattern says too.
pub(crate) const SHEET: &str =
    "<svg xmlns='http://www.w3.org/2000/svg' viewBox='0 0 1280 720' width='1280' height='720' role='img' font-family='system-ui,Segoe UI,Liberation Sans,Arial,sans-serif'>
<title>Instructions retired in a step, and speed-up, by units</title>
<style>
text{fill:#1f2933;font-size:14px}.title{font-size:24px;font-weight:600}.quiet,.caption{fill:#52606d}.caption,.number,.value{text-anchor:middle}
.number{font-size:15px;font-weight:600}.scale{fill:#52606d;font-size:12px;text-anchor:end}.value{font-size:13px;paint-order:stroke;stroke:#fff;stroke-width:4px;stroke-linejoin:round}
.ground{fill:#fff}.grid{stroke:#dde3e9}.axis{stroke:#7b8794;stroke-width:1.5}.curve,.speed{fill:none;stroke:#34588f;stroke-width:3;stroke-linejoin:round}.speed{stroke:#2f6b4a;stroke-dasharray:9 5}
.halted{fill:#34588f;stroke:#fff;stroke-width:2}.other{fill:#fff;stroke:#b0402a;stroke-width:3}.faster{fill:#fff;stroke:#2f6b4a;stroke-width:2}
.wasted{fill:url(#hatched);stroke:#b0402a;stroke-width:1.5}.tint{fill:#fae3dc}.stripe{stroke:#e09a86;stroke-width:2.6}
@media (prefers-color-scheme:dark){
text{fill:#e4e9ee}.quiet,.caption,.scale{fill:#9aa7b4}.ground,.other,.faster{fill:#1c2229}.value,.halted{stroke:#1c2229}.grid{stroke:#38424d}
.curve{stroke:#7fb0ff}.halted{fill:#7fb0ff}.speed,.faster{stroke:#6fd198}.other,.wasted{stroke:#ff9d94}.tint{fill:#4a2220}.stripe{stroke:#b3564a}
}
</style>
<defs><pattern id='hatched' width='7' height='7' patternUnits='userSpaceOnUse' patternTransform='rotate(45)'><path class='tint' d='M0 0H7V7H0Z'/><path class='stripe' d='M0 0V7'/></pattern></defs>
<path class='ground' d='M0 0H1280V720H0Z'/>
<text class='title' x='88' y='46'>Instructions retired in a step, and speed-up, by units</text>
<text class='quiet' x='88' y='72'>In each step every unit does at most one event. Steps are no time of a processor.</text>
<path class='curve' d='M88 98H124'/><circle class='halted' cx='106' cy='98' r='7'/><text x='132' y='103'>instructions retired in a step</text>
<path class='other' d='M364 98l9-9 9 9-9 9z'/><text x='390' y='103'>out of budget, trapped or unlisted</text>
<path class='speed' d='M658 98H710'/><path class='faster' d='M680 98v-4h8v8h-8z'/><text x='718' y='103'>speed-up over one unit</text>
<rect class='wasted' x='912' y='89' width='18' height='18'/><text x='938' y='103'>share of instructions thrown away</text>
<path class='grid' d='M88 550H1248M88 590H1248'/>
<path class='axis' d='M88 496H1248M88 630H1248'/>
<text class='scale' x='78' y='554'>100%</text>
<text class='scale' x='78' y='594'>50%</text>
<text class='scale' x='78' y='634'>0%</text>
<text class='caption' transform='rotate(-90)' x='-316' y='26'>instructions in a step, and speed-up</text>
<text class='caption' transform='rotate(-90)' x='-590' y='26'>thrown away</text>
<text class='caption' x='668' y='704'>units</text>
";
