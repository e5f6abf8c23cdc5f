// A page by itself: empty, shown, and with single words put at its end. Each call that writes asks for room. What is
// put is text and not a format: a `write!` never promises that it succeeds, and a page always does.
ghost use Rattle.std.specs.Prelude.{◌≡◌, ◌+◌, ◌≤◌, [], ◌++◌, length, codes, decimal};
ghost use Rattle.page.specs.Pages.{page_text, page_len, HasRoom};

use crate::page::Page;
use arrayvec::ArrayString;
use itoa::Buffer;

impl Page {
    // An empty page.
    pub(crate) fn new() -> Page
        ensures { page_text result ≡ [] }
    {
        Page {
            text: ArrayString::new(),
        }
    }

    // The text.
    pub fn as_slice(&self) -> &[u8]
        ensures text { result.now ≡ page_text self.now }
        ensures room { length result.now ≤ 21600 }
    {
        self.text.as_str().as_bytes()
    }

    pub(crate) fn put(&mut self, text: &str)
        requires { HasRoom self.old (length text.now) }
        ensures text { page_text self.new ≡ page_text self.old ++ text.now }
        ensures len { page_len self.new ≡ page_len self.old + length text.now }
    {
        self.text.push_str(text);
    }

    pub(crate) fn put_number(&mut self, n: u64)
        requires { HasRoom self.old 20 }
        ensures text { page_text self.new ≡ page_text self.old ++ decimal n }
        ensures len { page_len self.new ≤ page_len self.old + 20 }
    {
        self.put(Buffer::new().format(n));
    }

    // A space and a number.
    pub(crate) fn put_spaced(&mut self, n: u64)
        requires { HasRoom self.old 21 }
        ensures text { page_text self.new ≡ page_text self.old ++ codes " " ++ decimal n }
        ensures len { page_len self.new ≤ page_len self.old + 21 }
    {
        self.put(" ");
        self.put_number(n);
    }
}
