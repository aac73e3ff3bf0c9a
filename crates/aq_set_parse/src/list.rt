ghost use Rattle.std.specs.Prelude.{◌≡◌, ◌<◌, ◌≤◌, length, All, Some, slice_get, slice_range};
ghost use Rattle.aq_set_parse.specs.declared.token.SetToken.{SetToken};

use crate::token::SetToken;
use std::marker::Model;

/// The tokens of a set file, and its text. The last token is End, and the spans stand in the order of the
/// text.
#[derive(Debug, Drop)]
pub struct SetTokens<'a> {
    pub(crate) source: &'a [u8],
    pub(crate) list: Vec<SetToken>,
    pub ghost spans: { All (λ t. (t.start ≤ t.end) × (t.end ≤ length source.now)) list.items },
}

impl<'a> Model for SetTokens<'a> {
    ghost use Rattle.aq_set_parse.specs.Listed.{SetListed};

    ghost Value = { SetListed };

    ghost view = { λ t. record { source = t.source.now; list = t.list.items } };
}

impl<'a> SetTokens<'a> {
    /// The tokens in the order of the text.
    pub fn list(&self) -> &[SetToken]
        ensures { result.now ≡ self.now.list }
    {
        self.list.as_slice()
    }

    /// The bytes of the token at a place in the list.
    pub fn text(&self, i: usize) -> &[u8]
        requires { i < length self.now.list }
        ensures { (t : SetToken) → slice_get self.now.list i ≡ Some t
            → result.now ≡ slice_range self.now.source t.start t.end }
    {
        let token = self.list[i];
        &self.source[token.start as usize..token.end as usize]
    }
}
