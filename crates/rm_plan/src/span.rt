//! Sets of SCNs, as lists of spans.
ghost use Rattle.std.specs.Prelude.{ℕ, ◌≡◌, ◌≤◌, ◌&&◌, ◌||◌, ◌++◌, ◌∷◌, [], IfOk, OnOk};
ghost use Rattle.rm_plan.specs.Spans.{covers, lies_in, AreApart, IsAscending, IsFirstOutside};

use rm_base::{NoMemory, Scn};
use std::alloc::Global;

/// The SCNs from `start` up to, and without, `end`.
#[derive(Clone, Copy, PartialEq, Eq)]
pub(crate) struct Span {
    pub start: Scn,
    pub end: Scn,
}

// The least SCN at or above `low` that lies in none of the spans.
pub(crate) fn first_outside(spans: &[Span], low: Scn) -> Scn
    requires ascending { IsAscending spans.now }
    ensures { IsFirstOutside spans.now low result }
{
    let mut at = low;
    for span in spans {
        if at < span.start {
            return at;
        }
        at = at.max(span.end);
    }
    at
}

// The same, of spans that lie apart: it looks at few of them.
pub(crate) fn first_outside_apart(spans: &[Span], low: Scn) -> Scn
    requires ascending { IsAscending spans.now }
    requires apart { AreApart spans.now }
    ensures { IsFirstOutside spans.now low result }
{
    let count = spans.partition_point(|span| span.start <= low);
    if count == 0 {
        return low;
    }
    low.max(spans[count - 1].end)
}

// The spans, ascending by their starts.
pub(crate) fn in_order(spans: Vec<Span>) -> Vec<Span>
    ensures same { (g : ℕ) → covers result.items g ≡ covers spans.items g }
    ensures ascending { IsAscending result.items }
{
    let mut spans = spans;
    spans.sort_unstable_by_key(|span| span.start);
    spans
}

// Adds a span to those in `out` and `last`, which is the last of them: it grows where the span meets it.
fn add_span(out: &mut Vec<Span>, last: Span, span: Span) -> Result<Span, NoMemory>
    requires above { last.start ≤ span.start }
    ensures same { IfOk result (λ now. (g : ℕ) →
        covers (out.new.items ++ now ∷ []) g ≡ (covers (out.old.items ++ last ∷ []) g || lies_in g span)) }
    ensures ascending { IfOk result (λ now.
        IsAscending (out.old.items ++ last ∷ []) → IsAscending (out.new.items ++ now ∷ [])) }
    ensures apart { IfOk result (λ now. AreApart (out.old.items ++ last ∷ []) → AreApart (out.new.items ++ now ∷ [])) }
    ensures start { IfOk result (λ now. now.start ≤ span.start) }
{
    if span.start <= last.end {
        return Ok(Span {
            start: last.start,
            end: last.end.max(span.end),
        });
    }
    out.push(last)?;
    Ok(span)
}

// The same SCNs in fewer spans, none of which meets another.
pub(crate) fn merged_spans(alloc: Global, spans: &[Span]) -> Result<Vec<Span>, NoMemory>
    requires ascending { IsAscending spans.now }
    ensures same { IfOk result (λ out. (g : ℕ) → covers out.items g ≡ covers spans.now g) }
    ensures ascending { IfOk result (λ out. IsAscending out.items) }
    ensures apart { IfOk result (λ out. AreApart out.items) }
{
    let mut out = Vec::new(alloc);
    let mut last = Span { start: 0, end: 0 };
    for span in spans {
        last = add_span(&mut out, last, *span)?;
    }
    out.push(last)?;
    Ok(out)
}

// What both spans have in common.
fn overlap(x: Span, y: Span) -> Span
    ensures { (g : ℕ) → lies_in g result ≡ (lies_in g x && lies_in g y) }
{
    Span {
        start: x.start.max(y.start),
        end: x.end.min(y.end),
    }
}

// The SCNs that lie in spans of both lists, of each of which no span meets another: it passes over the
// span that ends first, and goes through both lists once.
pub(crate) fn common_spans(alloc: Global, xs: &[Span], ys: &[Span]) -> Result<Vec<Span>, NoMemory>
    requires first { AreApart xs.now }
    requires second { AreApart ys.now }
    ensures { IfOk result (λ out. (g : ℕ) → covers out.items g ≡ (covers xs.now g && covers ys.now g)) }
{
    let mut out = Vec::new(alloc);
    let (mut a, mut b) = (0usize, 0usize);
    while a < xs.len() && b < ys.len() {
        let (x, y) = (xs[a], ys[b]);
        out.push(overlap(x, y))?;
        if x.end <= y.end {
            a += 1;
        } else {
            b += 1;
        }
    }
    Ok(out)
}
