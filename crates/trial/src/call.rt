// The calls that write a reply.
ghost use Rattle.std.specs.Prelude.{◌≡◌, List, ℕ, length};
ghost use Rattle.design.specs.Queue.{find_new_cell};
ghost use Rattle.calls.specs.Answers.{Told, words_of, written_figures, merged_figures};
ghost use Rattle.calls.specs.Calls.{level_answer, compact_answer, merge_answer, rewrite_answer};

// The answer words are eight and the number is returned, as C has them.
pub trait Replying: Copy {
    // Of a ticket, so many words of work, and what the reply holds at entry.
    ghost told: { Self → List ℕ → ℕ → List ℕ → Told };

    fn call(self, ticket: &[u8], work: &mut [u32], reply: &mut [u8], answer: &mut [u32; 8]) -> u32
        ensures value { result ≡ (told self ticket.now (length work.old) reply.old).number }
        ensures answer_after { answer.new ≡ words_of (told self ticket.now (length work.old) reply.old) };
}

#[derive(Clone, Copy)]
pub struct Compact;

impl Replying for Compact {
    ghost told = { λ _ ticket words reply. written_figures (compact_answer words ticket reply) };

    fn call(self, ticket: &[u8], work: &mut [u32], reply: &mut [u8], answer: &mut [u32; 8]) -> u32 {
        ticket::cabbagetier_compact(ticket, work, reply, answer)
    }
}

#[derive(Clone, Copy)]
pub struct Merge;

impl Replying for Merge {
    ghost told = { λ _ ticket words reply. merged_figures (merge_answer words ticket reply) };

    fn call(self, ticket: &[u8], work: &mut [u32], reply: &mut [u8], answer: &mut [u32; 8]) -> u32 {
        ticket::cabbagetier_merge(ticket, work, reply, answer)
    }
}

#[derive(Clone, Copy)]
pub struct Rewrite;

impl Replying for Rewrite {
    ghost told = { λ _ ticket words reply. written_figures (rewrite_answer find_new_cell words ticket reply) };

    fn call(self, ticket: &[u8], work: &mut [u32], reply: &mut [u8], answer: &mut [u32; 8]) -> u32 {
        ticket::cabbagetier_rewrite(ticket, work, reply, answer)
    }
}

#[derive(Clone, Copy)]
pub struct Levels<'a> {
    pub levels: &'a [u8],
}

impl Replying for Levels<'_> {
    ghost told = { λ x ticket words reply. written_figures (level_answer words ticket x.levels.now reply) };

    fn call(self, ticket: &[u8], work: &mut [u32], reply: &mut [u8], answer: &mut [u32; 8]) -> u32 {
        ticket::cabbagetier_levels(ticket, self.levels, work, reply, answer)
    }
}
