//! The style of every SVG.

ghost use Rattle.std.specs.Prelude.{◌≡◌};
ghost use Rattle.spec_page.specs.SvgStyle as spec;

pub(crate) fn svg_style_0() -> &'static [u8]
    ensures { result.now ≡ spec.svg_style_0 }
{
    b"text{fill:#1f2328;font:13px ui-monospace,'DejaVu Sans Mono',Menlo,Consolas,monospace}rect{fill:none}.paper{fill:#fff}\
.strong,.name,.total text{font-weight:bold}.note,.path,.fork .strong,.gone text,text.gone,.refused .word{fill:#59636e}\
text.bad{fill:#cf222e}.path.taken,.accepted .path{fill:#1a7f37;font-weight:bold}\
.path.offered{fill:#0969da;font-weight:bold}.gone .path,text.gone{text-decoration:line-through}\
rect.taken{fill:#dafbe1}rect.offered,rect.now{fill:#ddf4ff}rect.head,rect.total,rect.blocks{fill:#f6f8fa}\
rect.chip{fill:none;stroke:#818b98;stroke-dasharray:3 2}\
rect.chip.met{fill:#dafbe1;stroke:#1a7f37;stroke-dasharray:none}path{fill:none;stroke:#59636e;stroke-width:1.5}\
.tick{stroke:#1a7f37;stroke-width:2}.arrow{fill:#0969da;stroke:none}\
.p0{fill:#0969da}.p1{fill:#b84a00}.p2{fill:#7c4fdb}.p3{fill:#1a737a}.p4{fill:#ba3686}.p5{fill:#7d4e00}.p6{fill:#59636e}"
}

pub(crate) fn svg_style_1() -> &'static [u8]
    ensures { result.now ≡ spec.svg_style_1 }
{
    b"@media(prefers-color-scheme:dark){text{fill:#e6edf3}.paper{fill:#0d1117}\
.note,.path,.fork .strong,.gone text,text.gone,.refused .word{fill:#9198a1}text.bad{fill:#ff7b72}\
.path.taken,.accepted .path{fill:#3fb950}.path.offered{fill:#58a6ff}rect.taken{fill:#12321f}\
rect.offered,rect.now{fill:#121d2f}rect.head,rect.total,rect.blocks{fill:#151b23}rect.chip{fill:none;stroke:#707983}\
rect.chip.met{fill:#12321f;stroke:#3fb950}path{stroke:#9198a1}.tick{stroke:#3fb950}.arrow{fill:#58a6ff}\
.p0{fill:#58a6ff}.p1{fill:#f0883e}.p2{fill:#bc8cff}.p3{fill:#39c5cf}.p4{fill:#f778ba}.p5{fill:#d4a72c}.p6{fill:#9198a1}}"
}
