// Lines put at the end of a page.
ghost use Rattle.std.specs.Prelude.{◌≡◌, ◌+◌, ◌*◌, ◌≤◌, ◌++◌, map, codes, decimal};
ghost use Rattle.std.proofs.Math.ListN as List;
ghost use Rattle.std.specs.List.{flat_map};
ghost use Rattle.page.specs.Pages.{page_text, page_len, HasRoom};
ghost use Rattle.page.specs.Text.{fault_numbers, last_line, row_line, spaced};

use crate::fault::Fault;
use crate::page::Page;
use schedule::rows::Row;

impl Page {
    fn put_row(&mut self, row: Row)
        requires { HasRoom self.old 84 }
        ensures text { page_text self.new ≡ page_text self.old ++ row_line row }
        ensures len { page_len self.new ≤ page_len self.old + 84 }
    {
        self.put_number(row.block);
        self.put_spaced(row.processor);
        self.put_spaced(row.start);
        self.put_spaced(row.finish);
        self.put("\n");
    }

    // The lines of all the rows.
    pub(crate) fn put_rows(&mut self, rows: &[Row])
        requires { HasRoom self.old (84 * List.length rows.now) }
        ensures text { page_text self.new ≡ page_text self.old ++ flat_map row_line rows.now }
        ensures len { page_len self.new ≤ page_len self.old + 84 * List.length rows.now }
    {
        for row in rows {
            self.put_row(*row);
        }
    }

    // A word, a space and a number.
    fn put_named(&mut self, word: &str, n: u64)
        requires { HasRoom self.old (List.length word.now + 21) }
        ensures text { page_text self.new ≡ page_text self.old ++ word.now ++ codes " " ++ decimal n }
        ensures len { page_len self.new ≤ page_len self.old + List.length word.now + 21 }
    {
        self.put(word);
        self.put_spaced(n);
    }

    // The last line of a listing.
    pub(crate) fn put_last(&mut self, length: u64, cost: u64, chain: u64)
        requires { HasRoom self.old 81 }
        ensures { page_text self.new ≡ page_text self.old ++ last_line length cost chain }
    {
        self.put_named("length", length);
        self.put_named(" cost", cost);
        self.put_named(" chain", chain);
        self.put("\n");
    }

    fn put_fault(&mut self, fault: Fault)
        requires { HasRoom self.old 63 }
        ensures text { page_text self.new ≡ page_text self.old ++ spaced (map decimal (fault_numbers fault)) }
        ensures len { page_len self.new ≤ page_len self.old + 63 }
    {
        self.put_spaced(fault.layer);
        self.put_spaced(fault.number);
        self.put_spaced(fault.place);
    }

    // The numbers of all the faults, each after a space, and the end of the line.
    pub(crate) fn put_faults(&mut self, faults: &[Fault])
        requires { HasRoom self.old (63 * List.length faults.now + 1) }
        ensures { page_text self.new ≡ page_text self.old ++ (spaced (map decimal (flat_map fault_numbers faults.now)) ++ codes "\n") }
    {
        for fault in faults {
            self.put_fault(*fault);
        }
        self.put("\n");
    }
}
