ghost use Rattle.addr_slice.specs.Claims.{TestTellsClash};
ghost use Rattle.addr_slice.specs.Slice.{ClaimsHold, ClaimsAreOfScope};

/// A law: the test whether two sets of claims clash is right. They clash where both claim some word, and one of them
/// claims it for writing.
pub fn test_tells_clash()
    ensures { TestTellsClash }
{}

/// A law: of every program that keeps the rules the claims of an iteration hold its turn, whatever words and scalars it
/// begins with: each word that it reads is claimed for reading, and each word that it writes for writing.
pub fn claims_hold()
    ensures { ClaimsHold }
{}

/// A law: what an iteration claims and costs depends only on the scalars in scope at its body and on the `const` words.
pub fn claims_are_of_scope()
    ensures { ClaimsAreOfScope }
{}
