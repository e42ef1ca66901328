//! What is the same in all pages.

/// From the beginning of a page to its title.
pub const HEAD: &str = "<!DOCTYPE html>
<html lang=\"en\">
<head>
<meta charset=\"utf-8\">
<meta name=\"viewport\" content=\"width=device-width, initial-scale=1\">
<meta http-equiv=\"Content-Security-Policy\" content=\"default-src 'none'; style-src 'unsafe-inline'; script-src 'unsafe-inline'\">
<title>";

/// From the title to the heading.
pub const STYLE: &str = "</title>
<style>
:root {
  color-scheme: light dark;
  --paper: #fbfbf9; --card: #ffffff; --ink: #1d2330; --soft: #5c6675; --rule: #d9dce3;
  --call: #2f6fb3; --call-ink: #ffffff; --store: #d9822b; --mark: #fff1c9; --here: #c2255c; --wrong: #b3261e;
  font-family: system-ui, -apple-system, 'Segoe UI', Roboto, 'DejaVu Sans', sans-serif;
  line-height: 1.45;
}
@media (prefers-color-scheme: dark) {
  :root {
    --paper: #15181e; --card: #1d2129; --ink: #e7e9ee; --soft: #a0a8b5; --rule: #343a46;
    --call: #5b9be0; --call-ink: #0d1117; --store: #f0a55a; --mark: #4a3d15; --here: #ff7eb0; --wrong: #ff8a80;
  }
}
* { box-sizing: border-box; }
body { margin: 0; background: var(--paper); color: var(--ink); }
header, main { max-width: 84rem; margin: 0 auto; padding: 0 1rem; }
h1 { font-size: 1.35rem; margin: 1rem 0 .25rem; overflow-wrap: anywhere; }
h2 { font-size: 1rem; margin: 0 0 .5rem; }
h3 { font-size: .9rem; margin: 0 0 .35rem; }
.wrong, .good { margin: 0 0 .75rem; font-weight: 600; }
.wrong { color: var(--wrong); margin-bottom: .25rem; }
.why { margin: 0 0 .75rem; }
code, pre, ol, .cell, .buffer, .registers, #now { font-family: ui-monospace, SFMono-Regular, Menlo, Consolas, 'DejaVu Sans Mono', monospace; font-size: .82rem; }
section { background: var(--card); border: 1px solid var(--rule); border-radius: .5rem; padding: .75rem; min-width: 0; }
main { display: grid; gap: .75rem; grid-template-columns: minmax(0, 1fr) minmax(0, 1fr); padding-bottom: 2rem; }
.wide { grid-column: 1 / -1; }
#controls { position: sticky; top: 0; z-index: 3; display: grid; gap: .4rem; }
#controls div { display: flex; flex-wrap: wrap; gap: .5rem; align-items: center; }
#at { flex: 1 1 6rem; min-width: 4rem; height: 2rem; accent-color: var(--here); }
#now { display: block; min-height: 1.3em; overflow-wrap: anywhere; }
button { font: inherit; color: inherit; background: var(--paper); border: 1px solid var(--rule); border-radius: .35rem; min-width: 2.4rem; min-height: 2.2rem; cursor: pointer; }
button:focus-visible, input:focus-visible, .scroll:focus-visible { outline: 2px solid var(--here); outline-offset: 1px; }
#lanes { overflow-x: auto; --step: max(1.1rem, (min(84rem, 100vw) - 11rem) / var(--count)); }
#time { position: relative; min-width: 100%; width: calc(6rem + var(--count) * var(--step)); }
.lane { display: flex; border-top: 1px solid var(--rule); padding: .3rem 0; }
.who { position: sticky; left: 0; z-index: 2; flex: none; width: 5.5rem; background: var(--card); font-weight: 600; font-size: .85rem; }
.track { position: relative; flex: none; width: calc(var(--count) * var(--step)); height: calc(2.3rem + var(--rows) * .55rem); }
.bar, .store, .tick { position: absolute; left: calc((var(--from) - 1) * var(--step)); }
.bar { top: 0; height: 1.35rem; width: calc((var(--to) - var(--from) + 1) * var(--step)); padding: 0 .3rem; border-radius: .25rem; background: var(--call); color: var(--call-ink); font-size: .75rem; line-height: 1.35rem; white-space: nowrap; overflow: clip; }
.bar span { position: sticky; left: 5.8rem; }
.bar.fails { background: var(--wrong); color: var(--card); }
.open { border-top-right-radius: 0; border-bottom-right-radius: 0; opacity: .75; }
.tick { top: 1.5rem; width: calc(var(--step) - 2px); height: .5rem; margin-left: 1px; background: var(--rule); border-radius: 1px; }
.read { background: var(--soft); } .write, .drain { background: var(--store); } .fault { background: var(--wrong); }
.fence, .lock, .unlock { background: var(--here); } .call, .return { background: var(--call); }
.store { top: calc(2.15rem + var(--row) * .55rem); height: .4rem; width: calc((var(--to) - var(--from) + 1) * var(--step)); background: var(--store); border-radius: .2rem; }
#fails { position: absolute; top: 0; bottom: 0; left: calc(5.5rem + var(--at) * var(--step)); border-left: 2px dashed var(--wrong); pointer-events: none; }
.store.unseen { outline: 2px solid var(--here); outline-offset: 1px; }
.buffer li.unseen { border-color: var(--here); border-width: 2px; }
#here { position: absolute; top: 0; bottom: 0; left: calc(5.5rem + var(--at) * var(--step)); border-left: 2px solid var(--here); pointer-events: none; }
.key { margin: .5rem 0 0; color: var(--soft); font-size: .8rem; }
.key span { white-space: nowrap; }
.key b.unseen { outline: 2px solid var(--here); outline-offset: 1px; }
.key b { display: inline-block; width: .9rem; height: .5rem; border-radius: .15rem; margin: 0 .2rem 0 .6rem; }
#memory p { margin: 0 0 .4rem; display: flex; gap: .6rem; align-items: center; flex-wrap: wrap; }
#memory .name { min-width: 4rem; font-weight: 600; font-size: .85rem; }
.cells { display: flex; flex-wrap: wrap; gap: 3px; }
.cell { min-width: 2.2rem; padding: .1rem .4rem; text-align: center; border: 1px solid var(--rule); border-radius: .25rem; overflow-wrap: anywhere; }
.changed { background: var(--mark); border-color: var(--store); }
.threads { display: grid; gap: .5rem; grid-template-columns: repeat(auto-fit, minmax(13rem, 1fr)); margin-top: .75rem; }
.thread { border: 1px solid var(--rule); border-radius: .4rem; padding: .5rem; min-width: 0; }
.thread.acts { border-color: var(--here); box-shadow: inset 3px 0 0 var(--here); }
.buffer { display: flex; flex-wrap: wrap; gap: 4px; margin: 0 0 .4rem; padding: 0; list-style: none; min-height: 1.7rem; }
.buffer li { padding: .1rem .45rem; border-radius: .9rem; border: 1px solid var(--store); background: var(--mark); overflow-wrap: anywhere; }
.buffer li.none { border-color: var(--rule); background: none; color: var(--soft); }
.registers { margin: 0; color: var(--soft); overflow-wrap: anywhere; min-height: 1.3em; }
.scroll { max-height: 26rem; overflow: auto; margin: 0; padding: 0; list-style: none; }
.scroll li { display: flex; gap: .6rem; white-space: pre; padding: 0 .35rem; min-height: 1.35rem; border-left: 3px solid transparent; }
.scroll li > span:first-child { flex: none; min-width: 2.2rem; text-align: right; color: var(--soft); }
#labels li { cursor: pointer; }
.brief .tick.reg, .brief #labels li.reg { display: none; }
#labels li.fails { color: var(--wrong); font-weight: 600; }
#controls label { display: flex; gap: .35rem; align-items: center; white-space: nowrap; }
#marks { flex: none; }
.scroll li.now { background: var(--mark); border-left-color: var(--here); }
.scroll li[data-next]::after { content: attr(data-next); margin-left: auto; position: sticky; right: 0; padding: 0 .2rem 0 .8rem; background: var(--card); color: var(--here); font-weight: 600; }
pre { margin: 0; white-space: pre-wrap; overflow-wrap: anywhere; }
@media print {
  :root { --paper: #ffffff; --card: #ffffff; --ink: #000000; --soft: #333333; --rule: #999999; --mark: #eeeeee; }
  * { print-color-adjust: exact; -webkit-print-color-adjust: exact; }
  main { display: block; }
  section { break-inside: avoid-page; margin-bottom: .5rem; }
  section:has(.scroll) { break-inside: auto; }
  #controls { position: static; } #controls div { display: none; }
  .scroll { max-height: none; overflow: visible; }
  #lanes { overflow: visible; --step: calc((100vw - 9rem) / var(--count)); }
}
@media screen and (max-width: 48rem) {
  main { grid-template-columns: minmax(0, 1fr); }
  header, main { padding-left: .5rem; padding-right: .5rem; }
  .scroll { max-height: 16rem; }
  #lanes { --step: max(.9rem, (100vw - 8.5rem) / var(--count)); }
}
</style>
</head>
<body>
<header>
<h1>Replay of <code>";

/// Between what is wrong with the run and why it is.
pub const WHY: &str = "</p>
<pre class=\"why\">";

/// Between why it is and the label with which it is.
pub const FAILS: &str = "</pre>
</header>
<main data-fails=\"";

/// Between that label and the slider's range.
pub const CONTROLS: &str = "\">
<section id=\"controls\" class=\"wide\" aria-label=\"Place in the run\">
<div>
<button id=\"first\" aria-label=\"Before the first label\" title=\"Home\">&#124;&lt;</button>
<button id=\"back\" aria-label=\"One label back\" title=\"Left arrow\">&lt;</button>
<input id=\"at\" type=\"range\" min=\"0\" step=\"1\" aria-label=\"Labels taken\" list=\"marks\" max=\"";

/// Between the slider and the lanes.
pub const LANES: &str = "\">
<button id=\"next\" aria-label=\"One label forward\" title=\"Right arrow\">&gt;</button>
<button id=\"last\" aria-label=\"After the last label\" title=\"End\">&gt;&#124;</button>
<label><input id=\"brief\" type=\"checkbox\"> hide reg</label>
<datalist id=\"marks\"></datalist>
</div>
<output id=\"now\" aria-live=\"polite\"></output>
</section>
<section class=\"wide\" aria-labelledby=\"h-lanes\">
<h2 id=\"h-lanes\">Calls and stores in time</h2>
";

/// Between the lanes and memory.
pub const STATE: &str =
    "<p class=\"key\"><span><b class=\"call\"></b>call</span> <span><b class=\"read\"></b>read</span> <span><b class=\"write\"></b>store, from its write to its drain</span> <span><b class=\"write unseen\"></b>one that this read passes by</span> <span><b class=\"fence\"></b>fence or lock</span></p>
</section>
<section aria-labelledby=\"h-state\">
<h2 id=\"h-state\">Memory and store buffers, the oldest store first</h2>
";

/// Between the threads and the list of labels.
pub const LABELS: &str = "</div>
</section>
<section aria-labelledby=\"h-source\">
<h2 id=\"h-source\">Program</h2>
<ol id=\"source\" class=\"scroll\" tabindex=\"0\" aria-labelledby=\"h-source\">
";

/// Between the program's lines and the labels.
pub const CALLS: &str = "</ol>
</section>
<section aria-labelledby=\"h-labels\">
<h2 id=\"h-labels\">Labels</h2>
<ol id=\"labels\" class=\"scroll\" tabindex=\"0\" aria-labelledby=\"h-labels\">
";

/// Between the labels and the calls.
pub const HISTORY: &str = "</ol>
</section>
<section aria-labelledby=\"h-calls\">
<h2 id=\"h-calls\">Calls and their order</h2>
<pre>";

/// Between the calls and the data.
pub const DATA: &str = "</pre>
</section>
</main>
<script type=\"application/json\" id=\"data\">[0";

/// From the data to the end.
pub const SCRIPT: &str = "]</script>
<script>
'use strict';
(() => {
  const id = (name) => document.getElementById(name);
  const steps = JSON.parse(id('data').textContent).slice(1);
  const last = steps.length - 1;
  const cells = [...document.querySelectorAll('#memory .cell')];
  const threads = [...document.querySelectorAll('.thread')];
  const labels = [...id('labels').children];
  const source = [...id('source').children];
  const slider = id('at');
  const lanes = id('lanes');
  const tracks = [...document.querySelectorAll('.track')];
  const brief = id('brief');
  const fails = Number(document.querySelector('main').dataset.fails);
  let at = -1;

  const textOf = (k) => labels[k - 1].lastElementChild.textContent;
  const number = (item, name) => Number(item.style.getPropertyValue(name));
  const isReg = (k) => k > 0 && k < last && / reg$/.test(textOf(k));
  labels.forEach((item, k) => item.classList.toggle('reg', isReg(k + 1)));
  if (fails > 0) {
    labels[fails - 1].classList.add('fails');
    for (const bar of document.querySelectorAll('.bar:not(.open)')) {
      bar.classList.toggle('fails', number(bar, '--to') === fails);
    }
    id('fails').style.setProperty('--at', String(fails));
    const option = document.createElement('option');
    option.value = String(fails);
    id('marks').append(option);
  } else {
    id('fails').remove();
  }

  // The next label in a direction, which is no step between registers where these are hidden.
  const step = (by) => {
    let k = at + by;
    while (brief.checked && k > 0 && k < last && isReg(k)) { k += by; }
    return k;
  };

  // The stores that a read of memory passes by, since other threads have them in their buffers.
  const unseen = (k) => {
    for (const item of document.querySelectorAll('.store.unseen, li.unseen')) { item.classList.remove('unseen'); }
    const read = k > 0 ? /^\\d+ read (\\S+) = /.exec(textOf(k)) : null;
    if (!read) { return; }
    const [actor, , state] = steps[k];
    const named = (entry) => cells[entry[0]].title === read[1];
    const entries = (t) => state[t + 1][1].slice(1);
    if (entries(actor).some(named)) { return; }
    threads.forEach((box, t) => {
      const bars = [...tracks[t].querySelectorAll('.store')].filter((bar) => number(bar, '--from') <= k && (number(bar, '--to') > k || k === last));
      entries(t).forEach((entry, place) => {
        if (!named(entry)) { return; }
        box.querySelectorAll('.buffer li')[place].classList.add('unseen');
        const bar = bars.slice(-entries(t).length)[place];
        if (bar) { bar.classList.add('unseen'); }
      });
    });
  };

  const within = (box, item) => {
    box.scrollTop = item.offsetTop - box.offsetTop - (box.clientHeight - item.offsetHeight) / 2;
  };

  const mark = (items, one, box) => {
    for (const item of items) {
      item.classList.remove('now');
      item.removeAttribute('aria-current');
    }
    if (one) {
      one.classList.add('now');
      one.setAttribute('aria-current', 'step');
      within(box, one);
    }
  };

  const memory = (state, before) => {
    cells.forEach((cell, place) => {
      const word = state[0][place + 1];
      cell.textContent = word;
      cell.classList.toggle('changed', before !== null && before[0][place + 1] !== word);
    });
  };

  const buffer = (list, entries) => {
    list.replaceChildren();
    for (const [place, word] of entries) {
      const item = document.createElement('li');
      item.textContent = cells[place].title + ' = ' + word;
      list.append(item);
    }
    if (entries.length === 0) {
      const item = document.createElement('li');
      item.className = 'none';
      item.textContent = 'empty';
      list.append(item);
    }
  };

  const show = (k) => {
    k = Math.max(0, Math.min(last, k));
    if (k === at) { return; }
    at = k;
    const [actor, line, state] = steps[k];
    memory(state, k > 0 ? steps[k - 1][2] : null);
    for (const item of source) { item.removeAttribute('data-next'); }
    threads.forEach((box, number) => {
      const [next, entries, registers] = state[number + 1];
      buffer(box.querySelector('.buffer'), entries.slice(1));
      box.querySelector('.registers').textContent = registers.trim();
      box.classList.toggle('acts', k > 0 && actor === number);
      const item = source[next - 1];
      if (item) {
        const others = item.getAttribute('data-next');
        item.setAttribute('data-next', others ? others + ' ' + number : 'next of ' + number);
      }
    });
    mark(source, k > 0 ? source[line - 1] : undefined, id('source'));
    mark(labels, labels[k - 1], id('labels'));
    const text = k > 0 ? labels[k - 1].lastElementChild.textContent : 'before the first label';
    id('now').textContent = k + ' of ' + last + ': ' + text;
    slider.value = String(k);
    slider.setAttribute('aria-valuetext', id('now').textContent);
    unseen(k);
    history.replaceState(null, '', '#' + k);
    const here = id('here');
    here.style.setProperty('--at', String(k));
    const left = here.offsetLeft - lanes.clientWidth / 2;
    lanes.scrollLeft = Math.max(0, left);
  };

  slider.addEventListener('input', () => show(Number(slider.value)));
  id('first').addEventListener('click', () => show(0));
  id('back').addEventListener('click', () => show(step(-1)));
  id('next').addEventListener('click', () => show(step(1)));
  brief.addEventListener('change', () => document.body.classList.toggle('brief', brief.checked));
  id('last').addEventListener('click', () => show(last));
  labels.forEach((item, number) => item.addEventListener('click', () => show(number + 1)));
  const keys = { ArrowLeft: () => step(-1), ArrowRight: () => step(1), Home: () => 0, End: () => last };
  document.addEventListener('keydown', (event) => {
    if (event.target === slider || event.altKey || event.ctrlKey || event.metaKey || !keys[event.key]) { return; }
    event.preventDefault();
    show(keys[event.key]());
  });
  const asked = Number(location.hash.slice(1));
  show(location.hash !== '' && Number.isInteger(asked) ? asked : fails > 0 ? fails : last);
  addEventListener('hashchange', () => show(Number(location.hash.slice(1)) || 0));
})();
</script>
</body>
</html>
";
