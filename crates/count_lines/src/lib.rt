// Counts the composed lines of a wrapped text.
#![tactic(auto)]

ghost use Rattle.std.specs.Prelude.{◌≡◌, length};
ghost use Rattle.text.specs.Line.{Opens, FewRecords};
ghost use Rattle.line_composer.specs.declared.Method.TheVariants.{WordWrap};
ghost use Rattle.line_composer.specs.Lines.{lines};

use line_composer::{LineComposer, Method};
use text::Alignment;
use wrapping::Rule;

pub fn count_lines(rule: Rule, default_alignment: Alignment, text: &[u32]) -> usize
    requires { FewRecords text.now × Opens text.now }
    ensures { result ≡ length (lines rule WordWrap default_alignment text.now) }
{
    let mut composer = LineComposer::new(rule, Method::WordWrap, text);
    let mut count = 0;
    // By `let .. else`, as document 01 asks of a next composed line.
    loop {
        let Some(_) = composer.next(rule, default_alignment, text) else {
            return count;
        };
        count += 1;
    }
}
