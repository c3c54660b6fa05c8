ghost use Rattle.std.specs.Prelude.{◌≡◌, ◌≢◌, ℕ, ℤ, ◌++◌, List, length, flat_map, decimal, codes, All};
ghost use Rattle.std.specs.Fmt.{signed_decimal};
ghost use Rattle.resp_reply.specs.declared.reply.Reply.{Reply, roll-Reply};
ghost use Rattle.resp_reply.specs.declared.reply.Reply.TheOpen.{Reply-F};
ghost use Rattle.resp_reply.specs.Replies.{line, in_one_line, bulk_text, reply_text};

/// The text of each form of reply. An array's is its count and then the texts of its items, whatever they are.
pub fn texts_of_forms()
    ensures status { (text : List ℕ) → reply_text (Reply.Status text) ≡ line (codes "+") (in_one_line text) }
    ensures fault { (text : List ℕ) → reply_text (Reply.Fault text) ≡ line (codes "-") (in_one_line text) }
    ensures int { (n : ℤ) → reply_text (Reply.Int n) ≡ line (codes ":") (signed_decimal n) }
    ensures bulk { (bytes : List ℕ) → reply_text (Reply.Bulk bytes) ≡ bulk_text bytes }
    ensures no_bulk { reply_text Reply.NullBulk ≡ codes "$-1\r\n" }
    ensures array { (items : List Reply) → reply_text (roll-Reply (Reply-F.Array items))
        ≡ line (codes "*") (decimal (length items)) ++ flat_map reply_text items }
    ensures no_array { reply_text Reply.NullArray ≡ codes "*-1\r\n" }
{}

/// No CR or LF stands in a status or a fault before the end of its line.
pub fn stands_on_one_line()
    ensures { (text : List ℕ) → All (λ b. (b ≢ 13) × (b ≢ 10)) (in_one_line text) }
{}
