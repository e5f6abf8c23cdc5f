// Worked examples, printed.
ghost use Rattle.std.specs.Prelude.{◌≡◌, Some};
ghost use Rattle.page.specs.Examples.{TextsStand, four_rows, four_rows_text, three_faults, three_faults_text};
ghost use Rattle.page.specs.Pages.{printed};
ghost use Rattle.page.specs.Text.{listing, refusal_line};

use crate::fault::Fault;
use crate::page::Page;
use crate::printing::{listing_page, refusal_page};
use schedule::rows::Row;

// The texts are what the definitions say.
fn texts_stand()
    ensures { TextsStand }
{}

// Four blocks on two processors.
pub fn worked_listing() -> Option<Page>
    ensures value { printed result ≡ Some four_rows_text }
    ensures text { listing four_rows 13 22 5 ≡ four_rows_text }
{
    texts_stand();
    let rows = [
        Row {
            block: 1,
            processor: 0,
            start: 0,
            finish: 4,
        },
        Row {
            block: 3,
            processor: 0,
            start: 4,
            finish: 9,
        },
        Row {
            block: 2,
            processor: 1,
            start: 6,
            finish: 9,
        },
        Row {
            block: 4,
            processor: 0,
            start: 11,
            finish: 13,
        },
    ];
    listing_page(&rows, 13, 22, 5)
}

// A refusal of three layers.
pub fn worked_refusal() -> Option<Page>
    ensures value { printed result ≡ Some three_faults_text }
    ensures text { refusal_line three_faults ≡ three_faults_text }
{
    texts_stand();
    let faults = [
        Fault {
            layer: 5,
            number: 4,
            place: 84,
        },
        Fault {
            layer: 2,
            number: 4,
            place: 11,
        },
        Fault {
            layer: 1,
            number: 4,
            place: 9,
        },
    ];
    refusal_page(&faults)
}
