// Job words of the right form.
ghost use Rattle.std.specs.Prelude.{◌≡◌, ◌≤◌, length};
ghost use Rattle.words.specs.Reading.{task_count, link_count};
ghost use Rattle.words.specs.Words.{word_count};

pub(crate) mod calls;

// Words whose counts are within the limits, and which are as many as these counts ask for.
#[derive(Clone, Copy)]
pub(crate) struct JobWords<'a> {
    words: &'a [u32],
    ghost few_tasks: { task_count words.now ≤ 256 },
    ghost few_links: { link_count words.now ≤ 1024 },
    ghost long: { length words.now ≡ word_count (task_count words.now) (link_count words.now) },
}
