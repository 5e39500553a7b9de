// The calls as C has them: each call, its answer put into eight words and its number returned. The crate `ticket_c` exports them.
// Compacting, merging and rewriting are three functions of one shape, here and there, since C calls each by its name.
#![tactic(auto)]

ghost use Rattle.std.specs.Prelude.{◌≡◌, length};
ghost use Rattle.design.specs.Queue.{find_new_cell};
ghost use Rattle.calls.specs.Work.{cleared};
ghost use Rattle.calls.specs.Answers.{check_figures, written_figures, merged_figures, words_of};
ghost use Rattle.calls.specs.Calls.{check_answer, level_answer, level_reply, compact_answer, compact_reply, merge_answer, merge_reply, rewrite_answer, rewrite_reply};

pub fn cabbagetier_check(ticket: &[u8], work: &mut [u32], answer: &mut [u32; 8]) -> u32
    ensures value { result ≡ (check_figures (check_answer (length work.old) ticket.now)).number }
    ensures work_after { work.new ≡ cleared work.old }
    ensures answer_after { answer.new ≡ words_of (check_figures (check_answer (length work.old) ticket.now)) }
{
    answers::tell(check_call::check(ticket, work), answer)
}

pub fn cabbagetier_levels(
    ticket: &[u8],
    levels: &[u8],
    work: &mut [u32],
    reply: &mut [u8],
    answer: &mut [u32; 8],
) -> u32
    ensures value { result ≡ (written_figures (level_answer (length work.old) ticket.now levels.now reply.old)).number }
    ensures reply_after { reply.new ≡ level_reply (length work.old) ticket.now levels.now reply.old }
    ensures work_after { work.new ≡ cleared work.old }
    ensures answer_after { answer.new ≡ words_of (written_figures (level_answer (length work.old) ticket.now levels.now reply.old)) }
{
    answers::tell(levels_call::levels(ticket, levels, work, reply), answer)
}

pub fn cabbagetier_compact(
    ticket: &[u8],
    work: &mut [u32],
    reply: &mut [u8],
    answer: &mut [u32; 8],
) -> u32
    ensures value { result ≡ (written_figures (compact_answer (length work.old) ticket.now reply.old)).number }
    ensures reply_after { reply.new ≡ compact_reply (length work.old) ticket.now reply.old }
    ensures work_after { work.new ≡ cleared work.old }
    ensures answer_after { answer.new ≡ words_of (written_figures (compact_answer (length work.old) ticket.now reply.old)) }
{
    answers::tell(compact_call::compact(ticket, work, reply), answer)
}

pub fn cabbagetier_merge(
    ticket: &[u8],
    work: &mut [u32],
    reply: &mut [u8],
    answer: &mut [u32; 8],
) -> u32
    ensures value { result ≡ (merged_figures (merge_answer (length work.old) ticket.now reply.old)).number }
    ensures reply_after { reply.new ≡ merge_reply (length work.old) ticket.now reply.old }
    ensures work_after { work.new ≡ cleared work.old }
    ensures answer_after { answer.new ≡ words_of (merged_figures (merge_answer (length work.old) ticket.now reply.old)) }
{
    answers::tell(merge_call::merge(ticket, work, reply), answer)
}

pub fn cabbagetier_rewrite(
    ticket: &[u8],
    work: &mut [u32],
    reply: &mut [u8],
    answer: &mut [u32; 8],
) -> u32
    ensures value { result ≡ (written_figures (rewrite_answer find_new_cell (length work.old) ticket.now reply.old)).number }
    ensures reply_after { reply.new ≡ rewrite_reply find_new_cell (length work.old) ticket.now reply.old }
    ensures work_after { work.new ≡ cleared work.old }
    ensures answer_after { answer.new ≡ words_of (written_figures (rewrite_answer find_new_cell (length work.old) ticket.now reply.old)) }
{
    answers::tell(rewrite_call::rewrite(ticket, work, reply), answer)
}
