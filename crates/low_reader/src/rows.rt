//! The lines of the rules, but for those that the name of an instruction begins.
ghost use Rattle.std.specs.Prelude.{◌≡◌, ◌++◌, map};
ghost use Rattle.low_grammar.specs.Rules.{lines};
ghost use Rattle.low_reader.specs.Choices.{line_of_row, form_lines};

use crate::piece::Piece;
use low_grammar::{Act, Class, Keyword, Rule};

/// A line of a rule: the class of its first word, and what follows that word.
#[derive(Clone, Copy)]
pub struct Row {
    pub first: Class,
    pub after: &'static [Piece],
}

/// The lines of the rule that no instruction's name begins. Those that one begins come after them.
pub fn rows(rule: Rule) -> &'static [Row]
    ensures { lines rule ≡ map line_of_row result.now ++ form_lines rule }
{
    match rule {
        Rule::Text => &[
            Row {
                first: Class::Key(Keyword::Module),
                after: &[
                    Piece::Rule(Rule::ModuleName),
                    Piece::Rule(Rule::ModuleAttributes),
                    Piece::Word(Class::Byte(b'{')),
                    Piece::Rule(Rule::Funcs),
                    Piece::Word(Class::Byte(b'}')),
                ],
            },
            Row {
                first: Class::Key(Keyword::Func),
                after: &[
                    Piece::Do(Act::BeginFunc),
                    Piece::Rule(Rule::Visibility),
                    Piece::Word(Class::SymbolName),
                    Piece::Do(Act::FuncName),
                    Piece::Word(Class::Byte(b'(')),
                    Piece::Rule(Rule::Params),
                    Piece::Word(Class::Byte(b')')),
                    Piece::Rule(Rule::FuncResults),
                    Piece::Do(Act::FuncResults),
                    Piece::Rule(Rule::FuncAttributes),
                    Piece::Word(Class::Byte(b'{')),
                    Piece::Word(Class::Label),
                    Piece::Do(Act::BeginBlock),
                    Piece::Rule(Rule::BlockParams),
                    Piece::Word(Class::Byte(b':')),
                    Piece::Rule(Rule::Instrs),
                    Piece::Rule(Rule::Funcs),
                ],
            },
        ],
        Rule::ModuleName => &[Row {
            first: Class::SymbolName,
            after: &[],
        }],
        Rule::ModuleAttributes => &[Row {
            first: Class::Key(Keyword::Attributes),
            after: &[
                Piece::Word(Class::Byte(b'{')),
                Piece::Rule(Rule::Inside),
                Piece::Word(Class::Byte(b'}')),
            ],
        }],
        Rule::Funcs => &[Row {
            first: Class::Key(Keyword::Func),
            after: &[
                Piece::Do(Act::BeginFunc),
                Piece::Rule(Rule::Visibility),
                Piece::Word(Class::SymbolName),
                Piece::Do(Act::FuncName),
                Piece::Word(Class::Byte(b'(')),
                Piece::Rule(Rule::Params),
                Piece::Word(Class::Byte(b')')),
                Piece::Rule(Rule::FuncResults),
                Piece::Do(Act::FuncResults),
                Piece::Rule(Rule::FuncAttributes),
                Piece::Word(Class::Byte(b'{')),
                Piece::Word(Class::Label),
                Piece::Do(Act::BeginBlock),
                Piece::Rule(Rule::BlockParams),
                Piece::Word(Class::Byte(b':')),
                Piece::Rule(Rule::Instrs),
                Piece::Rule(Rule::Funcs),
            ],
        }],
        Rule::Visibility => &[
            Row {
                first: Class::Key(Keyword::Private),
                after: &[],
            },
            Row {
                first: Class::Key(Keyword::Public),
                after: &[],
            },
        ],
        Rule::Params => &[Row {
            first: Class::Define,
            after: &[
                Piece::Do(Act::Define),
                Piece::Word(Class::Byte(b':')),
                Piece::Rule(Rule::Type),
                Piece::Do(Act::ParamType),
                Piece::Rule(Rule::DroppedDict),
                Piece::Rule(Rule::MoreParams),
            ],
        }],
        Rule::MoreParams => &[Row {
            first: Class::Byte(b','),
            after: &[
                Piece::Word(Class::Define),
                Piece::Do(Act::Define),
                Piece::Word(Class::Byte(b':')),
                Piece::Rule(Rule::Type),
                Piece::Do(Act::ParamType),
                Piece::Rule(Rule::DroppedDict),
                Piece::Rule(Rule::MoreParams),
            ],
        }],
        Rule::DroppedDict => &[Row {
            first: Class::Byte(b'{'),
            after: &[Piece::Rule(Rule::Inside), Piece::Word(Class::Byte(b'}'))],
        }],
        Rule::FuncResults => &[Row {
            first: Class::Arrow,
            after: &[Piece::Rule(Rule::ResultTypes)],
        }],
        Rule::FuncAttributes => &[Row {
            first: Class::Key(Keyword::Attributes),
            after: &[
                Piece::Word(Class::Byte(b'{')),
                Piece::Do(Act::BeginDict),
                Piece::Rule(Rule::Dict),
                Piece::Do(Act::FuncAttributes),
            ],
        }],
        Rule::Dict => &[
            Row {
                first: Class::Byte(b'}'),
                after: &[Piece::Do(Act::EndEntry)],
            },
            Row {
                first: Class::Byte(b','),
                after: &[Piece::Do(Act::EndEntry), Piece::Rule(Rule::Dict)],
            },
            Row {
                first: Class::EntryWord,
                after: &[Piece::Do(Act::Entry), Piece::Rule(Rule::Dict)],
            },
            Row {
                first: Class::Byte(b'('),
                after: &[
                    Piece::Rule(Rule::Inside),
                    Piece::Word(Class::Byte(b')')),
                    Piece::Do(Act::OtherEntry),
                    Piece::Rule(Rule::Dict),
                ],
            },
            Row {
                first: Class::Byte(b'['),
                after: &[
                    Piece::Rule(Rule::Inside),
                    Piece::Word(Class::Byte(b']')),
                    Piece::Do(Act::OtherEntry),
                    Piece::Rule(Rule::Dict),
                ],
            },
            Row {
                first: Class::Byte(b'{'),
                after: &[
                    Piece::Rule(Rule::Inside),
                    Piece::Word(Class::Byte(b'}')),
                    Piece::Do(Act::OtherEntry),
                    Piece::Rule(Rule::Dict),
                ],
            },
            Row {
                first: Class::Byte(b'<'),
                after: &[
                    Piece::Rule(Rule::Inside),
                    Piece::Word(Class::Byte(b'>')),
                    Piece::Do(Act::OtherEntry),
                    Piece::Rule(Rule::Dict),
                ],
            },
        ],
        Rule::Inside => &[
            Row {
                first: Class::AnyWord,
                after: &[Piece::Rule(Rule::Inside)],
            },
            Row {
                first: Class::Byte(b'('),
                after: &[
                    Piece::Rule(Rule::Inside),
                    Piece::Word(Class::Byte(b')')),
                    Piece::Rule(Rule::Inside),
                ],
            },
            Row {
                first: Class::Byte(b'['),
                after: &[
                    Piece::Rule(Rule::Inside),
                    Piece::Word(Class::Byte(b']')),
                    Piece::Rule(Rule::Inside),
                ],
            },
            Row {
                first: Class::Byte(b'{'),
                after: &[
                    Piece::Rule(Rule::Inside),
                    Piece::Word(Class::Byte(b'}')),
                    Piece::Rule(Rule::Inside),
                ],
            },
            Row {
                first: Class::Byte(b'<'),
                after: &[
                    Piece::Rule(Rule::Inside),
                    Piece::Word(Class::Byte(b'>')),
                    Piece::Rule(Rule::Inside),
                ],
            },
        ],
        Rule::BlockParams => &[Row {
            first: Class::Byte(b'('),
            after: &[
                Piece::Word(Class::Define),
                Piece::Do(Act::Define),
                Piece::Word(Class::Byte(b':')),
                Piece::Rule(Rule::Type),
                Piece::Do(Act::ParamType),
                Piece::Rule(Rule::MoreBlockParams),
                Piece::Word(Class::Byte(b')')),
                Piece::Do(Act::BlockParams),
            ],
        }],
        Rule::MoreBlockParams => &[Row {
            first: Class::Byte(b','),
            after: &[
                Piece::Word(Class::Define),
                Piece::Do(Act::Define),
                Piece::Word(Class::Byte(b':')),
                Piece::Rule(Rule::Type),
                Piece::Do(Act::ParamType),
                Piece::Rule(Rule::MoreBlockParams),
            ],
        }],
        Rule::Instrs => &[Row {
            first: Class::Define,
            after: &[
                Piece::Do(Act::Result),
                Piece::Rule(Rule::MoreResults),
                Piece::Word(Class::Byte(b'=')),
                Piece::Rule(Rule::Form),
            ],
        }],
        Rule::MoreResults => &[Row {
            first: Class::Byte(b','),
            after: &[
                Piece::Word(Class::Define),
                Piece::Do(Act::Result),
                Piece::Rule(Rule::MoreResults),
            ],
        }],
        Rule::Form => &[],
        Rule::NextBlock => &[
            Row {
                first: Class::Label,
                after: &[
                    Piece::Do(Act::BeginBlock),
                    Piece::Rule(Rule::BlockParams),
                    Piece::Word(Class::Byte(b':')),
                    Piece::Rule(Rule::Instrs),
                ],
            },
            Row {
                first: Class::FuncClose,
                after: &[Piece::Do(Act::EndFunc)],
            },
        ],
        Rule::Literal => &[
            Row {
                first: Class::Key(Keyword::True),
                after: &[Piece::Do(Act::Truth), Piece::Do(Act::TruthResult)],
            },
            Row {
                first: Class::Key(Keyword::False),
                after: &[Piece::Do(Act::Truth), Piece::Do(Act::TruthResult)],
            },
            Row {
                first: Class::Byte(b'-'),
                after: &[
                    Piece::Word(Class::Negated),
                    Piece::Do(Act::Negative),
                    Piece::Word(Class::Byte(b':')),
                    Piece::Rule(Rule::Type),
                    Piece::Do(Act::Results),
                ],
            },
            Row {
                first: Class::Number,
                after: &[
                    Piece::Do(Act::Literal),
                    Piece::Word(Class::Byte(b':')),
                    Piece::Rule(Rule::Type),
                    Piece::Do(Act::Results),
                ],
            },
        ],
        Rule::Uses => &[Row {
            first: Class::Use,
            after: &[Piece::Do(Act::Operand), Piece::Rule(Rule::MoreUses)],
        }],
        Rule::MoreUses => &[Row {
            first: Class::Byte(b','),
            after: &[
                Piece::Word(Class::Use),
                Piece::Do(Act::Operand),
                Piece::Rule(Rule::MoreUses),
            ],
        }],
        Rule::Arguments => &[Row {
            first: Class::Byte(b'('),
            after: &[
                Piece::Word(Class::Use),
                Piece::Do(Act::Argument),
                Piece::Rule(Rule::MoreArguments),
                Piece::Word(Class::Byte(b':')),
                Piece::Do(Act::OweArguments),
                Piece::Rule(Rule::OwedType),
                Piece::Rule(Rule::MoreOwedTypes),
                Piece::Word(Class::OwedClose),
                Piece::Do(Act::DropTypes),
            ],
        }],
        Rule::MoreArguments => &[Row {
            first: Class::Byte(b','),
            after: &[
                Piece::Word(Class::Use),
                Piece::Do(Act::Argument),
                Piece::Rule(Rule::MoreArguments),
            ],
        }],
        Rule::Returned => &[Row {
            first: Class::Use,
            after: &[
                Piece::Do(Act::Operand),
                Piece::Rule(Rule::MoreUses),
                Piece::Word(Class::Byte(b':')),
                Piece::Do(Act::OweOperands),
                Piece::Rule(Rule::OwedType),
                Piece::Rule(Rule::MoreOwedTypes),
                Piece::Do(Act::DropTypes),
            ],
        }],
        Rule::Type => &[
            Row {
                first: Class::PlainType,
                after: &[Piece::Do(Act::PlainType)],
            },
            Row {
                first: Class::ValueType,
                after: &[
                    Piece::Word(Class::Byte(b'<')),
                    Piece::Word(Class::Payload),
                    Piece::Do(Act::ValueType),
                    Piece::Word(Class::Byte(b'>')),
                ],
            },
        ],
        Rule::Types => &[
            Row {
                first: Class::PlainType,
                after: &[Piece::Do(Act::PlainType), Piece::Rule(Rule::MoreTypes)],
            },
            Row {
                first: Class::ValueType,
                after: &[
                    Piece::Word(Class::Byte(b'<')),
                    Piece::Word(Class::Payload),
                    Piece::Do(Act::ValueType),
                    Piece::Word(Class::Byte(b'>')),
                    Piece::Rule(Rule::MoreTypes),
                ],
            },
        ],
        Rule::MoreTypes => &[Row {
            first: Class::Byte(b','),
            after: &[Piece::Rule(Rule::Type), Piece::Rule(Rule::MoreTypes)],
        }],
        Rule::ResultTypes => &[
            Row {
                first: Class::Byte(b'('),
                after: &[Piece::Rule(Rule::Types), Piece::Word(Class::Byte(b')'))],
            },
            Row {
                first: Class::PlainType,
                after: &[Piece::Do(Act::PlainType)],
            },
            Row {
                first: Class::ValueType,
                after: &[
                    Piece::Word(Class::Byte(b'<')),
                    Piece::Word(Class::Payload),
                    Piece::Do(Act::ValueType),
                    Piece::Word(Class::Byte(b'>')),
                ],
            },
        ],
        Rule::OwedType => &[
            Row {
                first: Class::PlainType,
                after: &[Piece::Do(Act::PlainType), Piece::Do(Act::Paid)],
            },
            Row {
                first: Class::ValueType,
                after: &[
                    Piece::Word(Class::Byte(b'<')),
                    Piece::Word(Class::Payload),
                    Piece::Do(Act::ValueType),
                    Piece::Word(Class::Byte(b'>')),
                    Piece::Do(Act::Paid),
                ],
            },
        ],
        Rule::MoreOwedTypes => &[Row {
            first: Class::OwedComma,
            after: &[
                Piece::Rule(Rule::OwedType),
                Piece::Rule(Rule::MoreOwedTypes),
            ],
        }],
        Rule::CallResults => &[
            Row {
                first: Class::Byte(b'('),
                after: &[Piece::Rule(Rule::CallTypes), Piece::Word(Class::OwedClose)],
            },
            Row {
                first: Class::OnlyPlainType,
                after: &[Piece::Do(Act::PlainType), Piece::Do(Act::Paid)],
            },
            Row {
                first: Class::OnlyValueType,
                after: &[
                    Piece::Word(Class::Byte(b'<')),
                    Piece::Word(Class::Payload),
                    Piece::Do(Act::ValueType),
                    Piece::Word(Class::Byte(b'>')),
                    Piece::Do(Act::Paid),
                ],
            },
        ],
        Rule::CallTypes => &[
            Row {
                first: Class::PlainType,
                after: &[
                    Piece::Do(Act::PlainType),
                    Piece::Do(Act::Paid),
                    Piece::Rule(Rule::MoreOwedTypes),
                ],
            },
            Row {
                first: Class::ValueType,
                after: &[
                    Piece::Word(Class::Byte(b'<')),
                    Piece::Word(Class::Payload),
                    Piece::Do(Act::ValueType),
                    Piece::Word(Class::Byte(b'>')),
                    Piece::Do(Act::Paid),
                    Piece::Rule(Rule::MoreOwedTypes),
                ],
            },
        ],
    }
}
