//! How a picture looks, in light and dark.

/// The style of a picture, and the heads of its arrows.
pub(crate) const STYLE: &[u8] = b"<style>\n\
svg{color-scheme:light dark;background:#fff}\n\
text{font:11px monospace;fill:#24292f}\n\
.ground{fill:#fff}\n\
.title{font:bold 15px sans-serif}\n\
.name{font:bold 13px sans-serif;text-anchor:middle}\n\
.number{text-anchor:end;fill:#656d76}\n\
.idle{fill:#656d76;font-style:italic}\n\
.left{text-anchor:end}\n\
.in{text-anchor:end;fill:#656d76}\n\
.rule{stroke:#d8dee4;stroke-width:1}\n\
.life{stroke:#24292f;stroke-width:2}\n\
.band{fill:#dbeafe}\n\
.arrow{stroke:#0550ae;stroke-width:1.5;fill:none;marker-end:url(#head)}\n\
.vain{stroke:#656d76;marker-end:url(#hollow)}\n\
.again{stroke-dasharray:6 3}\n\
.lost{stroke:#b42318;marker-end:url(#cross)}\n\
.open{stroke:#656d76;stroke-dasharray:2 3;marker-end:none}\n\
.good{fill:#116329}\n\
.bad{fill:#b42318}\n\
.plain{fill:#24292f}\n\
.full{fill:#0550ae}\n\
.empty{fill:#fff;stroke:#656d76}\n\
.cut{stroke:#b42318;stroke-width:1.5;fill:none}\n\
@media (prefers-color-scheme:dark){\n\
svg{background:#0d1117}\n\
text,.plain{fill:#e6edf3}\n\
.ground{fill:#0d1117}\n\
.number,.idle,.in{fill:#9198a1}\n\
.rule{stroke:#2a313c}\n\
.life{stroke:#e6edf3}\n\
.band{fill:#15294a}\n\
.arrow{stroke:#79c0ff}\n\
.vain,.open{stroke:#9198a1}\n\
.lost,.cut{stroke:#ff7b72}\n\
.good{fill:#56d364}\n\
.bad{fill:#ff7b72}\n\
.full{fill:#79c0ff}\n\
.empty{fill:#0d1117;stroke:#9198a1}\n\
}\n\
</style>\n\
<defs>\n\
<marker id=\"head\" markerWidth=\"10\" markerHeight=\"8\" refX=\"9\" refY=\"4\" orient=\"auto\" \
markerUnits=\"userSpaceOnUse\"><path class=\"full\" d=\"M0 0L10 4L0 8z\"/></marker>\n\
<marker id=\"hollow\" markerWidth=\"11\" markerHeight=\"10\" refX=\"10\" refY=\"5\" orient=\"auto\" \
markerUnits=\"userSpaceOnUse\"><path class=\"empty\" d=\"M1 1L10 5L1 9z\"/></marker>\n\
<marker id=\"cross\" markerWidth=\"10\" markerHeight=\"10\" refX=\"5\" refY=\"5\" orient=\"auto\" \
markerUnits=\"userSpaceOnUse\"><path class=\"cut\" d=\"M1 1L9 9M1 9L9 1\"/></marker>\n\
</defs>\n";

/// What the kinds of arrows mean, below the picture.
pub(crate) const LEGEND: [&[u8]; 3] = [
    b"Arrows are frames: the number in its direction, MsgSeqNum (34) and MsgType (35). A bent one was overtaken, a \
dashed one came again,",
    b"one with a cross was lost with its connection, a dotted one is on its way at the end. Nothing came of one with \
a hollow head.",
    b"Bands are connections of the session. Nothing came of a line in italics.",
];
