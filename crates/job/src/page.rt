//! A page of bytes with text laid over it.
ghost use Rattle.std.specs.Prelude.{◌+◌, ◌^◌, ◌<◌, length};
ghost use Rattle.job.specs.Pages.{Laid};

/// Lays text over a page from a place on, and answers the place behind it. What lies past the page's end is counted and left out.
#[tactic(auto, using(crate::proofs::Overlays::overlaid_part))]
pub fn lay(page: &mut [u8], at: usize, text: &str) -> usize
    requires { at + length text.now < 2 ^ 64 }
    ensures { Laid page.old at text.now page.new result }
{
    let next = at + text.len();
    let start = at.min(page.len());
    let end = next.min(page.len());
    page[start..end].copy_from_slice(&text.as_bytes()[..end - start]);
    next
}
