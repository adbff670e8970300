// What is remarked of a token: all of it, or what stands behind its first byte.
ghost use Rattle.std.specs.Prelude.{◌≡◌, ◌∷◌, [], List, ℤ};
ghost use Rattle.tokens.specs.Spans.{item_of};
ghost use Rattle.rules.specs.Diagnostics.{diagnostic, here, after_first, all_of_it};
ghost use Rattle.stores.specs.Diagnostics.{remark_number, value_in, ValueFits};
ghost use Rattle.reader.specs.Reader.{view_of, SameBuffers};
ghost use Rattle.view.specs.Steps.{diagnosed};

use super::walk::Reader;
use scan::lines::Offset;
use stores::diagnostic::{At, Remark, Value};
use tokens::cut::Span;

/// All of a token.
pub fn all_of_it(span: Span) -> Value
    ensures value { value_in result ≡ all_of_it (item_of span.entry) }
    ensures fits { ValueFits result }
{
    let end = span.offset.0 + 1 + span.value.len() as u32;
    Value::Part(span.offset, Offset(end))
}

/// What stands behind a token's first byte.
pub fn after_first(span: Span) -> Value
    ensures value { value_in result ≡ after_first (item_of span.entry) }
    ensures fits { ValueFits result }
{
    let start = span.offset.0 + 1;
    Value::Part(Offset(start), Offset(start + span.value.len() as u32))
}

impl<'s, 't, 'n, 'b, 'l, 'd> Reader<'s, 't, 'n, 'b, 'l, 'd> {
    /// A token that is remarked, and else does nothing.
    pub fn remark_alone(&mut self, remark: Remark, span: Span<'d>, value: Value)
        requires { ValueFits value }
        ensures same { SameBuffers self.old self.new }
        ensures remarked { (figure : List ℤ) → view_of self.new figure ≡ diagnosed
            (diagnostic (remark_number remark) (here (item_of span.entry)) (value_in value) ∷ [])
            (view_of self.old figure) }
    {
        self.diagnostics.push(remark, At::Data(span.place), value);
    }
}
