// The texts of refusals, reasons, kinds, and of what lies below a stack's entries, by document 01's numbers: the check answers in those.
ghost use Rattle.words.specs.Texts as Texts;
ghost use Rattle.words.specs.Texts.{Text};

// What a refusal means.
pub fn refusal(k: u64) -> &'static str
    ensures { Text (Texts.refusal_text k) (Texts.refusal k) result.now }
{
    match k {
        0 => "done",
        1 => "the image is under 24 bytes: no room for a table of contents",
        2 => "over a limit: 256 rules, 2048 nodes or 8192 bytes of text",
        3 => "a position or the total length is not as the layout asks",
        4 => "a node's kind, bits, fields, text or span is not allowed",
        5 => "a rule has no name inside the text, or its root is no node",
        6 => "two rules share a name",
        7 => "the nodes are no trees: not each is once a part or a root",
        8 => "the outcome table has no free place left",
        9 => "the walked table has no free place left",
        10 => "the report table has no free place left",
        11 => "one run of a repetition has a 65th distinct start",
        12 => "the rules nest too deep: a 257th node would be open at once",
        13 => "left recursion: a search from one rule entered 65537 nodes",
        _ => "no refusal has this number",
    }
}

// The name of a reason.
pub fn reason(k: u64) -> &'static str
    ensures { Text (Texts.reason_text k) (Texts.reason k) result.now }
{
    match k {
        0 => "no reason has this number",
        1 => "repetition cannot fail",
        2 => "repetition does not progress",
        3 => "stack loop",
        4 => "choice cannot be reached",
        5 => "left recursion",
        _ => "no reason has this number",
    }
}

// A reason in a sentence.
pub fn why(k: u64) -> &'static str
    ensures { Text (Texts.why_text k) (Texts.why k) result.now }
{
    match k {
        0 => "Nothing is known of it.",
        1 => "What is repeated cannot fail, so the turns never end.",
        2 => "What is repeated need not move on, so the turns may never end.",
        3 => "Begun on such a stack it never ends: each turn matches in place.",
        4 => "This side cannot fail, so what comes after it is never tried.",
        5 => "This name leads back to its rule before the input has moved.",
        _ => "Nothing is known of it.",
    }
}

// The name of a kind.
pub fn kind(k: u8) -> &'static str
    ensures { Text (Texts.kind_text k) (Texts.kind k) result.now }
{
    match k {
        0 => "no kind",
        1 => "Str",
        2 => "Insens",
        3 => "Range",
        4 => "Ident",
        5 => "PeekSlice",
        6 => "PosPred",
        7 => "NegPred",
        8 => "Seq",
        9 => "Choice",
        10 => "Opt",
        11 => "Rep",
        12 => "RepOnce",
        13 => "RepExact",
        14 => "RepMin",
        15 => "RepMax",
        16 => "RepMinMax",
        17 => "Push",
        18 => "PushLiteral",
        19 => "NodeTag",
        _ => "no kind",
    }
}

// What lies below the tracked entries: of a state's number the base and intact, base + 4 × intact.
pub fn below(k: u64) -> &'static str
    ensures { Text (Texts.below_text k) (Texts.below k) result.now }
{
    match k {
        0 => "nothing",
        1 => "blank entries only, any number of them or none",
        2 => "any entries, or none",
        3 => "no base has this number",
        4 => "nothing, as when the rule began",
        5 => "the entries with which the rule began, all of them blank",
        6 => "the entries with which the rule began",
        _ => "no base has this number",
    }
}
