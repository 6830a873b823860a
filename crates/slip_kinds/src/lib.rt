#![tactic(auto)]

ghost use Rattle.std.specs.Prelude.{◌≡◌, ℕ, List, Option, Some, None, MatchOption};
ghost use Rattle.slip_kinds.specs.Kinds.{IsKind, ReadsBack};

use arrayvec::ArrayVec;

/// A kind of slip: what a slip of it says, and how that is written into a message of at most 15
/// bytes. No two contents have one message.
pub trait SlipKind {
    /// What a slip of this kind says.
    type Content;

    // The message of a content; none where that is outside its range.
    ghost writes: { Self.Content → Option (List ℕ) };

    /// The message of a content, at most 15 bytes; none where the content is outside its range.
    fn write(content: &Self::Content) -> Option<ArrayVec<u8, 15>>
        ensures { MatchOption result (writes content.now ≡ None)
            (λ message. writes content.now ≡ Some message.items) };

    /// The content that has this message; none where no content has.
    fn read(message: &[u8]) -> Option<Self::Content>
        ensures { ReadsBack writes message.now result };

    ghost is_kind: { IsKind writes };
}
