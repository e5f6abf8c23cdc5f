// The pages that are printed.
ghost use Rattle.std.specs.Prelude.{◌≡◌, if◌then◌else◌, Some, None, nat_le};
ghost use Rattle.std.proofs.Math.ListN as List;
ghost use Rattle.page.specs.Pages.{printed};
ghost use Rattle.page.specs.Text.{listing, refusal_line};

use crate::fault::Fault;
use crate::page::Page;
use chains::limits::MAX_BLOCKS;
use schedule::rows::Row;

// The listing of a schedule; none where it has more than 256 rows.
pub fn listing_page(rows: &[Row], length: u64, cost: u64, chain: u64) -> Option<Page>
    ensures { printed result ≡ (if nat_le (List.length rows.now) 256 then Some (listing rows.now length cost chain) else None) }
{
    if rows.len() > MAX_BLOCKS {
        return None;
    }
    let mut page = Page::new();
    page.put_rows(rows);
    page.put_last(length, cost, chain);
    Some(page)
}

// The line of a refusal; none where it has more than three faults.
pub fn refusal_page(faults: &[Fault]) -> Option<Page>
    ensures { printed result ≡ (if nat_le (List.length faults.now) 3 then Some (refusal_line faults.now) else None) }
{
    if faults.len() > 3 {
        return None;
    }
    let mut page = Page::new();
    page.put("refused");
    page.put_faults(faults);
    Some(page)
}
