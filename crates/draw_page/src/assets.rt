//! The style and the script of every page.

ghost use Rattle.std.specs.Prelude.{◌≡◌};
ghost use Rattle.spec_page.specs.Style as style;
ghost use Rattle.spec_page.specs.Script as script;

pub(crate) fn style_0() -> &'static [u8]
    ensures { result.now ≡ style.style_0 }
{
    b":root{--fg:#1f2328;--mut:#59636e;--bg:#fff;--line:#d1d9e0;--edge:#818b98;--soft:#f6f8fa;--ok:#1a7f37;--okbg:#dafbe1;\
--now:#0969da;--nowbg:#ddf4ff;--bad:#cf222e;--on:#fff;--c0:#0969da;--c1:#b84a00;--c2:#7c4fdb;--c3:#1a737a;--c4:#ba3686;\
--c5:#7d4e00;--c6:#59636e;color-scheme:light dark}\
@media(prefers-color-scheme:dark){:root{--fg:#e6edf3;--mut:#9198a1;--bg:#0d1117;--line:#30363d;--edge:#707983;--soft:#151b23;\
--ok:#3fb950;--okbg:#12321f;--now:#58a6ff;--nowbg:#121d2f;--bad:#ff7b72;--on:#0d1117;--c0:#58a6ff;--c1:#f0883e;--c2:#bc8cff;\
--c3:#39c5cf;--c4:#f778ba;--c5:#d4a72c;--c6:#9198a1}}\
*{box-sizing:border-box}\
body{margin:0 auto;max-width:1180px;padding:20px;font:14px/1.45 system-ui,'DejaVu Sans',sans-serif;color:var(--fg);\
background:var(--bg)}body:has(.wide){max-width:1700px}\
h1{font-size:19px;margin:0;overflow-wrap:anywhere}h1 small{font-weight:normal;white-space:nowrap;color:var(--mut);font-size:13px;margin-left:8px}\
.p0{--c:var(--c0)}.p1{--c:var(--c1)}.p2{--c:var(--c2)}.p3{--c:var(--c3)}.p4{--c:var(--c4)}.p5{--c:var(--c5)}.p6{--c:var(--c6)}\
.bar{display:flex;height:26px;border:1px solid var(--edge);border-radius:6px;overflow:hidden;margin:14px 0 4px;"
}

pub(crate) fn style_1() -> &'static [u8]
    ensures { result.now ≡ style.style_1 }
{
    b"background:var(--edge)}\
.bar div{flex:0 1 0;display:flex;align-items:center;justify-content:center;min-width:0;overflow:hidden;white-space:nowrap;\
font-size:12px;background:var(--c);color:var(--on);box-shadow:inset -1px 0 var(--bg);container-type:inline-size}\
.bar .in{--c:var(--mut)}.bar .out,.bar .fee{background:var(--bg);color:var(--fg);box-shadow:inset -1px 0 var(--edge)}\
@container(max-width:64px){.bar span{display:none}}\
.ctl{display:none;position:sticky;top:0;z-index:2;gap:12px;align-items:center;padding:8px 0;background:var(--bg);\
border-bottom:1px solid var(--line)}.live .ctl{display:flex}\
.ctl input{flex:1;min-width:0;accent-color:var(--now)}.ctl output{color:var(--mut);font-variant-numeric:tabular-nums}\
.now{min-height:34px;margin:10px 0;padding:6px 12px;background:var(--nowbg);border-left:3px solid var(--now)}\
.now p{display:inline;overflow-wrap:anywhere}.now .off{display:none}\
table{width:100%;border-collapse:collapse;font-variant-numeric:tabular-nums}h2{font-size:14px;margin:18px 0 2px}\
th{padding:14px 8px 5px;text-align:right;font-weight:600;white-space:nowrap;color:var(--c);border-bottom:2px solid var(--edge)}"
}

pub(crate) fn style_2() -> &'static [u8]
    ensures { result.now ≡ style.style_2 }
{
    b"th:nth-child(-n+2){text-align:left}th.name{max-width:150px;white-space:normal;overflow-wrap:anywhere}.scroll{overflow-x:auto}\
td{padding:3px 8px;border-bottom:1px solid var(--line)}\
.path{width:70px;max-width:110px;overflow:hidden;text-overflow:ellipsis;direction:rtl;text-align:left;white-space:nowrap;\
color:var(--mut);font:12px ui-monospace,'DejaVu Sans Mono',monospace}\
.what{min-width:260px;overflow-wrap:anywhere}.sum{width:96px;text-align:right;white-space:nowrap}.few .sum i:last-child{margin-right:-7px}\
.d1 .what{padding-left:24px}.d2 .what{padding-left:40px}.d3 .what{padding-left:56px}.d4 .what{padding-left:72px}\
.d5 .what{padding-left:88px}.d6 .what{padding-left:104px}.d7 .what{padding-left:120px}.d8 .what{padding-left:136px}\
i{display:inline-block;padding:1px 6px;font-style:normal;border:1px solid transparent;border-radius:5px}\
.chip{display:inline-block;border:1px dashed var(--edge);border-radius:10px;padding:0 8px;font-size:12.5px}\
.chip.met{border-style:solid;border-color:var(--ok);background:var(--okbg)}.chip.met:before{content:'\\2713\\a0';color:var(--ok)}\
.fork td{padding-top:6px;border-bottom:0;color:var(--mut)}.part,.any,.note,.brings{color:var(--mut)}\
.taken{background:var(--okbg)}i.taken{border-color:var(--ok)}i.taken:before{content:'\\2713\\a0'}.taken .path{color:var(--ok);"
}

pub(crate) fn style_3() -> &'static [u8]
    ensures { result.now ≡ style.style_3 }
{
    b"font-weight:bold}.taken .path bdi:before{content:'\\2713\\a0'}\
.offered{background:var(--nowbg)}i.offered{border:2px solid var(--now)}.offered .path{color:var(--now);font-weight:bold}\
.offered .path bdi:before{content:'\\25B8\\a0'}\
.gone{color:var(--mut)}.gone .path,.chip.gone,i.gone{text-decoration:line-through}\
.ev{cursor:pointer}.ev.blocks{background:var(--soft)}.ev.refused .what{color:var(--mut)}.ev em{color:var(--bad);\
font-style:normal}.ev.accepted .path{color:var(--ok);font-weight:bold}\
.ev.later td{color:var(--mut)}.ev.later .sum{visibility:hidden}.ev.here{outline:2px solid var(--now);outline-offset:-2px}\
.dot:before{content:'\\25CF';margin-left:4px;font-size:10px;color:var(--c)}\
.wide th{padding:14px 2px 5px;font-size:12px}.wide th.name{max-width:84px}.wide td{padding:3px 2px}.wide .sum{width:auto;\
font-size:11.5px}.wide .what{min-width:140px}.wide th:nth-child(2){white-space:normal}.wide i{padding:1px 2px}\
.turned th.name{writing-mode:vertical-rl;text-align:left;vertical-align:bottom;padding-left:calc(100% - 20px);max-width:none;white-space:nowrap}\
table .total td{border-top:2px solid var(--edge);border-bottom:0;font-weight:600}summary{margin-top:14px;cursor:pointer;"
}

pub(crate) fn style_4() -> &'static [u8]
    ensures { result.now ≡ style.style_4 }
{
    b"color:var(--mut)}pre{padding:10px;white-space:pre-wrap;overflow-wrap:anywhere;font-size:12px;background:var(--soft)}\
@media(max-width:640px){body{padding:12px}h1 small{display:block;margin:0}table,tbody{display:block}th,.wide th{padding:5px 0;\
border:0}th:empty{display:none}th.name,.wide th.name,.turned th.name{max-width:none;writing-mode:horizontal-tb}\
.wide .what{min-width:0}.scroll{overflow-x:visible}\
tr{display:flex;flex-wrap:wrap;justify-content:flex-end;align-items:baseline;gap:2px 8px;padding:3px 6px;border-bottom:1px solid var(--line)}\
.head th:nth-child(n+3){display:none}.head{gap:0 10px;border-bottom:2px solid var(--edge)}td,.wide td{padding:0;border:0}td:empty{display:none}\
.path{width:auto;min-width:26px}.what,th:nth-child(2){min-width:0;flex:1 1 70%}.sum,.wide .sum{width:auto;font-size:14px}.sum:before{content:attr(data-of) ' ';\
font-size:12px;color:var(--c)}.ev.later .sum{display:none}.sum i{padding:0 4px}.few .sum i:last-child{margin-right:0}table .total td{border:0}\
.total{border-top:2px solid var(--edge)}\
.d1 .what{padding-left:8px}.d2 .what{padding-left:16px}.d3 .what{padding-left:24px}.d4 .what{padding-left:32px}\
.d5 .what{padding-left:40px}.d6 .what{padding-left:48px}.d7 .what{padding-left:56px}.d8 .what{padding-left:64px}}"
}

pub(crate) fn script_0() -> &'static [u8]
    ensures { result.now ≡ script.script_0 }
{
    b"const all=s=>[...document.querySelectorAll(s)],rows=all('.ev'),bar=all('.bar div'),range=all('#range')[0],said=all('#said')[0],\
looks=['open','offered','taken','met','gone','on','off'];\
function go(n){\
n=Math.max(0,Math.min(rows.length-1,n));range.value=n;\
all('[data-at]').forEach(e=>{let look='';e.dataset.at.split(' ').forEach(x=>{const[k,w]=x.split(':');if(n>=k)look=w});\
e.classList.remove(...looks);e.classList.add(look)});\
rows.forEach((e,k)=>{e.classList.toggle('later',k>n);e.classList.toggle('here',k==n)});\
rows[n].dataset.money.split(' ').forEach((v,k)=>{bar[k].style.flexGrow=v});\
said.textContent=rows[n].dataset.said}\
function named(){const h=/^#event-(\\d+)$/.exec(location.hash);if(h){let n=0;rows.forEach((e,k)=>{if(+h[1]>=+e.dataset.first)n=k}\
);go(n);rows[n].scrollIntoView({block:'center'})}}\
range.oninput=()=>go(+range.value);"
}

pub(crate) fn script_1() -> &'static [u8]
    ensures { result.now ≡ script.script_1 }
{
    b"rows.forEach((e,k)=>{e.onclick=()=>go(k)});\
onkeydown=e=>{const d={ArrowLeft:-1,ArrowRight:1}[e.key];if(d&&e.target!=range){go(+range.value+d);e.preventDefault()}};\
onhashchange=named;\
document.body.classList.add('live');go(rows.length-1);named()"
}
