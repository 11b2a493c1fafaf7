//! The lines of the rules, but for those that an operation's name begins.
ghost use Rattle.std.specs.Prelude.{◌≡◌, ◌++◌, map};
ghost use Rattle.op_table.specs.declared.rows.Level.{Level};
ghost use Rattle.module_grammar.specs.Rules.{lines};
ghost use Rattle.module_grammar.specs.Choices.{line_of_row, form_lines};

use crate::symbols::{Act, Class, Keyword, Rule, Symbol};

/// A line of a rule: the class of its first word, and what follows that word.
#[derive(Clone, Copy)]
pub struct Row {
    pub first: Class,
    pub after: &'static [Symbol],
}

/// The lines of the rule that no operation's name begins. Those that one begins come after them.
pub(crate) fn rows(rule: Rule) -> &'static [Row]
    ensures { (level : Level) → lines level rule ≡ map line_of_row result.now ++ form_lines level rule }
{
    match rule {
        Rule::Text => &[
            Row {
                first: Class::Key(Keyword::Module),
                after: &[
                    Symbol::Rule(Rule::ModuleName),
                    Symbol::Rule(Rule::ModuleAttributes),
                    Symbol::Word(Class::Byte(b'{')),
                    Symbol::Rule(Rule::Funcs),
                    Symbol::Word(Class::Byte(b'}')),
                ],
            },
            Row {
                first: Class::Key(Keyword::Func),
                after: &[
                    Symbol::Do(Act::BeginFunc),
                    Symbol::Rule(Rule::Visibility),
                    Symbol::Word(Class::SymbolName),
                    Symbol::Do(Act::FuncName),
                    Symbol::Word(Class::Byte(b'(')),
                    Symbol::Rule(Rule::Params),
                    Symbol::Word(Class::Byte(b')')),
                    Symbol::Rule(Rule::FuncResults),
                    Symbol::Rule(Rule::FuncAttributes),
                    Symbol::Word(Class::Byte(b'{')),
                    Symbol::Do(Act::OpenBody),
                    Symbol::Rule(Rule::Body),
                    Symbol::Word(Class::Byte(b'}')),
                    Symbol::Do(Act::EndFunc),
                    Symbol::Rule(Rule::Funcs),
                ],
            },
        ],
        Rule::ModuleName => &[Row {
            first: Class::SymbolName,
            after: &[],
        }],
        Rule::ModuleAttributes => &[Row {
            first: Class::Key(Keyword::Attributes),
            after: &[
                Symbol::Word(Class::Byte(b'{')),
                Symbol::Rule(Rule::Inside),
                Symbol::Word(Class::Byte(b'}')),
            ],
        }],
        Rule::Funcs => &[Row {
            first: Class::Key(Keyword::Func),
            after: &[
                Symbol::Do(Act::BeginFunc),
                Symbol::Rule(Rule::Visibility),
                Symbol::Word(Class::SymbolName),
                Symbol::Do(Act::FuncName),
                Symbol::Word(Class::Byte(b'(')),
                Symbol::Rule(Rule::Params),
                Symbol::Word(Class::Byte(b')')),
                Symbol::Rule(Rule::FuncResults),
                Symbol::Rule(Rule::FuncAttributes),
                Symbol::Word(Class::Byte(b'{')),
                Symbol::Do(Act::OpenBody),
                Symbol::Rule(Rule::Body),
                Symbol::Word(Class::Byte(b'}')),
                Symbol::Do(Act::EndFunc),
                Symbol::Rule(Rule::Funcs),
            ],
        }],
        Rule::Visibility => &[
            Row {
                first: Class::Key(Keyword::Private),
                after: &[],
            },
            Row {
                first: Class::Key(Keyword::Public),
                after: &[],
            },
        ],
        Rule::Params => &[Row {
            first: Class::Param,
            after: &[
                Symbol::Do(Act::Param),
                Symbol::Word(Class::Byte(b':')),
                Symbol::Rule(Rule::Type),
                Symbol::Do(Act::ParamType),
                Symbol::Rule(Rule::DroppedDict),
                Symbol::Rule(Rule::MoreParams),
            ],
        }],
        Rule::MoreParams => &[Row {
            first: Class::Byte(b','),
            after: &[
                Symbol::Word(Class::Param),
                Symbol::Do(Act::Param),
                Symbol::Word(Class::Byte(b':')),
                Symbol::Rule(Rule::Type),
                Symbol::Do(Act::ParamType),
                Symbol::Rule(Rule::DroppedDict),
                Symbol::Rule(Rule::MoreParams),
            ],
        }],
        Rule::DroppedDict => &[Row {
            first: Class::Byte(b'{'),
            after: &[Symbol::Rule(Rule::Inside), Symbol::Word(Class::Byte(b'}'))],
        }],
        Rule::FuncResults => &[Row {
            first: Class::Arrow,
            after: &[
                Symbol::Rule(Rule::ResultTypes),
                Symbol::Do(Act::FuncResults),
            ],
        }],
        Rule::FuncAttributes => &[Row {
            first: Class::Key(Keyword::Attributes),
            after: &[
                Symbol::Word(Class::Byte(b'{')),
                Symbol::Do(Act::BeginDict),
                Symbol::Rule(Rule::Dict),
                Symbol::Do(Act::FuncAt),
            ],
        }],
        Rule::Type => &[
            Row {
                first: Class::PlainType,
                after: &[Symbol::Do(Act::PlainType)],
            },
            Row {
                first: Class::ValueType,
                after: &[
                    Symbol::Word(Class::Byte(b'<')),
                    Symbol::Word(Class::Payload),
                    Symbol::Do(Act::ValueType),
                    Symbol::Word(Class::Byte(b'>')),
                ],
            },
        ],
        Rule::Types => &[
            Row {
                first: Class::PlainType,
                after: &[Symbol::Do(Act::PlainType), Symbol::Rule(Rule::MoreTypes)],
            },
            Row {
                first: Class::ValueType,
                after: &[
                    Symbol::Word(Class::Byte(b'<')),
                    Symbol::Word(Class::Payload),
                    Symbol::Do(Act::ValueType),
                    Symbol::Word(Class::Byte(b'>')),
                    Symbol::Rule(Rule::MoreTypes),
                ],
            },
        ],
        Rule::MoreTypes => &[Row {
            first: Class::Byte(b','),
            after: &[Symbol::Rule(Rule::Type), Symbol::Rule(Rule::MoreTypes)],
        }],
        Rule::ResultTypes => &[
            Row {
                first: Class::Byte(b'('),
                after: &[Symbol::Rule(Rule::Types), Symbol::Word(Class::Byte(b')'))],
            },
            Row {
                first: Class::PlainType,
                after: &[Symbol::Do(Act::PlainType)],
            },
            Row {
                first: Class::ValueType,
                after: &[
                    Symbol::Word(Class::Byte(b'<')),
                    Symbol::Word(Class::Payload),
                    Symbol::Do(Act::ValueType),
                    Symbol::Word(Class::Byte(b'>')),
                ],
            },
        ],
        Rule::OpDict => &[Row {
            first: Class::Byte(b'{'),
            after: &[
                Symbol::Do(Act::BeginDict),
                Symbol::Rule(Rule::Dict),
                Symbol::Do(Act::OpAt),
            ],
        }],
        Rule::Dict => &[
            Row {
                first: Class::EntryClose,
                after: &[Symbol::Do(Act::EndEntry)],
            },
            Row {
                first: Class::EntryComma,
                after: &[Symbol::Do(Act::EndEntry), Symbol::Rule(Rule::Dict)],
            },
            Row {
                first: Class::EntryWord,
                after: &[Symbol::Do(Act::Entry), Symbol::Rule(Rule::Dict)],
            },
            Row {
                first: Class::Byte(b'('),
                after: &[
                    Symbol::Rule(Rule::Inside),
                    Symbol::Word(Class::Byte(b')')),
                    Symbol::Do(Act::OtherEntry),
                    Symbol::Rule(Rule::Dict),
                ],
            },
            Row {
                first: Class::Byte(b'['),
                after: &[
                    Symbol::Rule(Rule::Inside),
                    Symbol::Word(Class::Byte(b']')),
                    Symbol::Do(Act::OtherEntry),
                    Symbol::Rule(Rule::Dict),
                ],
            },
            Row {
                first: Class::Byte(b'{'),
                after: &[
                    Symbol::Rule(Rule::Inside),
                    Symbol::Word(Class::Byte(b'}')),
                    Symbol::Do(Act::OtherEntry),
                    Symbol::Rule(Rule::Dict),
                ],
            },
            Row {
                first: Class::Byte(b'<'),
                after: &[
                    Symbol::Rule(Rule::Inside),
                    Symbol::Word(Class::Byte(b'>')),
                    Symbol::Do(Act::OtherEntry),
                    Symbol::Rule(Rule::Dict),
                ],
            },
        ],
        Rule::Inside => &[
            Row {
                first: Class::AnyWord,
                after: &[Symbol::Rule(Rule::Inside)],
            },
            Row {
                first: Class::Byte(b'('),
                after: &[
                    Symbol::Rule(Rule::Inside),
                    Symbol::Word(Class::Byte(b')')),
                    Symbol::Rule(Rule::Inside),
                ],
            },
            Row {
                first: Class::Byte(b'['),
                after: &[
                    Symbol::Rule(Rule::Inside),
                    Symbol::Word(Class::Byte(b']')),
                    Symbol::Rule(Rule::Inside),
                ],
            },
            Row {
                first: Class::Byte(b'{'),
                after: &[
                    Symbol::Rule(Rule::Inside),
                    Symbol::Word(Class::Byte(b'}')),
                    Symbol::Rule(Rule::Inside),
                ],
            },
            Row {
                first: Class::Byte(b'<'),
                after: &[
                    Symbol::Rule(Rule::Inside),
                    Symbol::Word(Class::Byte(b'>')),
                    Symbol::Rule(Rule::Inside),
                ],
            },
        ],
        Rule::Location => &[Row {
            first: Class::Key(Keyword::Loc),
            after: &[
                Symbol::Word(Class::Byte(b'(')),
                Symbol::Rule(Rule::Inside),
                Symbol::Word(Class::Byte(b')')),
            ],
        }],
        Rule::Body => &[Row {
            first: Class::Result,
            after: &[
                Symbol::Do(Act::BeginOp),
                Symbol::Do(Act::Result),
                Symbol::Rule(Rule::Results),
                Symbol::Do(Act::CountNames),
                Symbol::Word(Class::Byte(b'=')),
                Symbol::Rule(Rule::Form),
                Symbol::Rule(Rule::OpDict),
                Symbol::Rule(Rule::Location),
                Symbol::Do(Act::EndOp),
                Symbol::Rule(Rule::Body),
            ],
        }],
        Rule::Results => &[
            Row {
                first: Class::Byte(b','),
                after: &[
                    Symbol::Word(Class::Result),
                    Symbol::Do(Act::Result),
                    Symbol::Rule(Rule::MoreResults),
                ],
            },
            Row {
                first: Class::Byte(b':'),
                after: &[Symbol::Word(Class::Number), Symbol::Do(Act::ResultCount)],
            },
        ],
        Rule::MoreResults => &[Row {
            first: Class::Byte(b','),
            after: &[
                Symbol::Word(Class::Result),
                Symbol::Do(Act::Result),
                Symbol::Rule(Rule::MoreResults),
            ],
        }],
        Rule::Form => &[],
        Rule::Literal => &[
            Row {
                first: Class::Key(Keyword::True),
                after: &[Symbol::Do(Act::Truth), Symbol::Do(Act::TruthResult)],
            },
            Row {
                first: Class::Key(Keyword::False),
                after: &[Symbol::Do(Act::Truth), Symbol::Do(Act::TruthResult)],
            },
            Row {
                first: Class::Byte(b'-'),
                after: &[
                    Symbol::Word(Class::Negated),
                    Symbol::Do(Act::Negative),
                    Symbol::Rule(Rule::OpDict),
                    Symbol::Word(Class::Byte(b':')),
                    Symbol::Rule(Rule::Type),
                    Symbol::Do(Act::Results),
                ],
            },
            Row {
                first: Class::Number,
                after: &[
                    Symbol::Do(Act::Literal),
                    Symbol::Rule(Rule::OpDict),
                    Symbol::Word(Class::Byte(b':')),
                    Symbol::Rule(Rule::Type),
                    Symbol::Do(Act::Results),
                ],
            },
        ],
        Rule::Index => &[Row {
            first: Class::Index,
            after: &[Symbol::Do(Act::OperandIndex)],
        }],
        Rule::Uses => &[Row {
            first: Class::Use,
            after: &[
                Symbol::Do(Act::Operand),
                Symbol::Rule(Rule::Index),
                Symbol::Rule(Rule::MoreUses),
            ],
        }],
        Rule::MoreUses => &[Row {
            first: Class::Byte(b','),
            after: &[
                Symbol::Word(Class::Use),
                Symbol::Do(Act::Operand),
                Symbol::Rule(Rule::Index),
                Symbol::Rule(Rule::MoreUses),
            ],
        }],
        Rule::Held => &[Row {
            first: Class::Use,
            after: &[Symbol::Do(Act::Hold), Symbol::Rule(Rule::AfterHeld)],
        }],
        Rule::AfterHeld => &[
            Row {
                first: Class::Byte(b','),
                after: &[
                    Symbol::Word(Class::Use),
                    Symbol::Do(Act::Hold),
                    Symbol::Rule(Rule::AfterHeld),
                ],
            },
            Row {
                first: Class::HeldEquals,
                after: &[
                    Symbol::Do(Act::HeldResults),
                    Symbol::Do(Act::CountNames),
                    Symbol::Rule(Rule::Form),
                ],
            },
            Row {
                first: Class::Byte(b':'),
                after: &[Symbol::Rule(Rule::AfterHeldColon)],
            },
            Row {
                first: Class::Byte(b'{'),
                after: &[
                    Symbol::Do(Act::HeldOperands),
                    Symbol::Do(Act::BeginDict),
                    Symbol::Rule(Rule::Dict),
                    Symbol::Do(Act::OpAt),
                    Symbol::Word(Class::Byte(b':')),
                    Symbol::Rule(Rule::Type),
                    Symbol::Rule(Rule::MoreTypes),
                    Symbol::Do(Act::Written),
                ],
            },
            Row {
                first: Class::Index,
                after: &[
                    Symbol::Do(Act::HeldOperands),
                    Symbol::Do(Act::OperandIndex),
                    Symbol::Rule(Rule::MoreUses),
                    Symbol::Rule(Rule::OpDict),
                    Symbol::Word(Class::Byte(b':')),
                    Symbol::Rule(Rule::Type),
                    Symbol::Rule(Rule::MoreTypes),
                    Symbol::Do(Act::Written),
                ],
            },
        ],
        Rule::AfterHeldColon => &[
            Row {
                first: Class::HeldNumber,
                after: &[
                    Symbol::Do(Act::HeldResults),
                    Symbol::Do(Act::ResultCount),
                    Symbol::Do(Act::CountNames),
                    Symbol::Word(Class::Byte(b'=')),
                    Symbol::Rule(Rule::Form),
                ],
            },
            Row {
                first: Class::PlainType,
                after: &[
                    Symbol::Do(Act::PlainType),
                    Symbol::Do(Act::HeldOperands),
                    Symbol::Rule(Rule::MoreTypes),
                    Symbol::Do(Act::Written),
                ],
            },
            Row {
                first: Class::ValueType,
                after: &[
                    Symbol::Word(Class::Byte(b'<')),
                    Symbol::Word(Class::Payload),
                    Symbol::Do(Act::ValueType),
                    Symbol::Word(Class::Byte(b'>')),
                    Symbol::Do(Act::HeldOperands),
                    Symbol::Rule(Rule::MoreTypes),
                    Symbol::Do(Act::Written),
                ],
            },
        ],
        Rule::IterArgs => &[Row {
            first: Class::Key(Keyword::IterArgs),
            after: &[
                Symbol::Word(Class::Byte(b'(')),
                Symbol::Word(Class::Param),
                Symbol::Do(Act::Param),
                Symbol::Word(Class::Byte(b'=')),
                Symbol::Word(Class::Use),
                Symbol::Do(Act::Operand),
                Symbol::Rule(Rule::Index),
                Symbol::Rule(Rule::MoreInits),
                Symbol::Word(Class::Byte(b')')),
                Symbol::Word(Class::Arrow),
                Symbol::Word(Class::Byte(b'(')),
                Symbol::Rule(Rule::Type),
                Symbol::Rule(Rule::MoreTypes),
                Symbol::Word(Class::Byte(b')')),
                Symbol::Do(Act::Results),
                Symbol::Do(Act::ResultParams),
            ],
        }],
        Rule::Inits => &[Row {
            first: Class::Byte(b'('),
            after: &[
                Symbol::Word(Class::Param),
                Symbol::Do(Act::Param),
                Symbol::Word(Class::Byte(b'=')),
                Symbol::Word(Class::Use),
                Symbol::Do(Act::Operand),
                Symbol::Rule(Rule::Index),
                Symbol::Rule(Rule::MoreInits),
                Symbol::Word(Class::Byte(b')')),
            ],
        }],
        Rule::MoreInits => &[Row {
            first: Class::Byte(b','),
            after: &[
                Symbol::Word(Class::Param),
                Symbol::Do(Act::Param),
                Symbol::Word(Class::Byte(b'=')),
                Symbol::Word(Class::Use),
                Symbol::Do(Act::Operand),
                Symbol::Rule(Rule::Index),
                Symbol::Rule(Rule::MoreInits),
            ],
        }],
        Rule::Branches => &[
            Row {
                first: Class::Arrow,
                after: &[Symbol::Rule(Rule::BranchTypes)],
            },
            Row {
                first: Class::Byte(b'{'),
                after: &[
                    Symbol::Do(Act::OpenRegion),
                    Symbol::Rule(Rule::Body),
                    Symbol::Word(Class::Byte(b'}')),
                    Symbol::Do(Act::CloseRegion),
                    Symbol::Rule(Rule::Else),
                ],
            },
        ],
        Rule::BranchTypes => &[
            Row {
                first: Class::Byte(b'('),
                after: &[Symbol::Rule(Rule::BranchTypeList)],
            },
            Row {
                first: Class::PlainType,
                after: &[
                    Symbol::Do(Act::PlainType),
                    Symbol::Do(Act::Results),
                    Symbol::Word(Class::Byte(b'{')),
                    Symbol::Do(Act::OpenRegion),
                    Symbol::Rule(Rule::Body),
                    Symbol::Word(Class::Byte(b'}')),
                    Symbol::Do(Act::CloseRegion),
                    Symbol::Word(Class::Key(Keyword::Else)),
                    Symbol::Word(Class::Byte(b'{')),
                    Symbol::Do(Act::OpenRegion),
                    Symbol::Rule(Rule::Body),
                    Symbol::Word(Class::Byte(b'}')),
                    Symbol::Do(Act::CloseRegion),
                ],
            },
            Row {
                first: Class::ValueType,
                after: &[
                    Symbol::Word(Class::Byte(b'<')),
                    Symbol::Word(Class::Payload),
                    Symbol::Do(Act::ValueType),
                    Symbol::Word(Class::Byte(b'>')),
                    Symbol::Do(Act::Results),
                    Symbol::Word(Class::Byte(b'{')),
                    Symbol::Do(Act::OpenRegion),
                    Symbol::Rule(Rule::Body),
                    Symbol::Word(Class::Byte(b'}')),
                    Symbol::Do(Act::CloseRegion),
                    Symbol::Word(Class::Key(Keyword::Else)),
                    Symbol::Word(Class::Byte(b'{')),
                    Symbol::Do(Act::OpenRegion),
                    Symbol::Rule(Rule::Body),
                    Symbol::Word(Class::Byte(b'}')),
                    Symbol::Do(Act::CloseRegion),
                ],
            },
        ],
        Rule::BranchTypeList => &[
            Row {
                first: Class::Byte(b')'),
                after: &[
                    Symbol::Word(Class::Byte(b'{')),
                    Symbol::Do(Act::OpenRegion),
                    Symbol::Rule(Rule::Body),
                    Symbol::Word(Class::Byte(b'}')),
                    Symbol::Do(Act::CloseRegion),
                    Symbol::Rule(Rule::Else),
                ],
            },
            Row {
                first: Class::PlainType,
                after: &[
                    Symbol::Do(Act::PlainType),
                    Symbol::Rule(Rule::MoreTypes),
                    Symbol::Word(Class::Byte(b')')),
                    Symbol::Do(Act::Results),
                    Symbol::Word(Class::Byte(b'{')),
                    Symbol::Do(Act::OpenRegion),
                    Symbol::Rule(Rule::Body),
                    Symbol::Word(Class::Byte(b'}')),
                    Symbol::Do(Act::CloseRegion),
                    Symbol::Word(Class::Key(Keyword::Else)),
                    Symbol::Word(Class::Byte(b'{')),
                    Symbol::Do(Act::OpenRegion),
                    Symbol::Rule(Rule::Body),
                    Symbol::Word(Class::Byte(b'}')),
                    Symbol::Do(Act::CloseRegion),
                ],
            },
            Row {
                first: Class::ValueType,
                after: &[
                    Symbol::Word(Class::Byte(b'<')),
                    Symbol::Word(Class::Payload),
                    Symbol::Do(Act::ValueType),
                    Symbol::Word(Class::Byte(b'>')),
                    Symbol::Rule(Rule::MoreTypes),
                    Symbol::Word(Class::Byte(b')')),
                    Symbol::Do(Act::Results),
                    Symbol::Word(Class::Byte(b'{')),
                    Symbol::Do(Act::OpenRegion),
                    Symbol::Rule(Rule::Body),
                    Symbol::Word(Class::Byte(b'}')),
                    Symbol::Do(Act::CloseRegion),
                    Symbol::Word(Class::Key(Keyword::Else)),
                    Symbol::Word(Class::Byte(b'{')),
                    Symbol::Do(Act::OpenRegion),
                    Symbol::Rule(Rule::Body),
                    Symbol::Word(Class::Byte(b'}')),
                    Symbol::Do(Act::CloseRegion),
                ],
            },
        ],
        Rule::Else => &[Row {
            first: Class::Key(Keyword::Else),
            after: &[
                Symbol::Word(Class::Byte(b'{')),
                Symbol::Do(Act::OpenRegion),
                Symbol::Rule(Rule::Body),
                Symbol::Word(Class::Byte(b'}')),
                Symbol::Do(Act::CloseRegion),
            ],
        }],
        Rule::BlockParams => &[Row {
            first: Class::BlockName,
            after: &[
                Symbol::Word(Class::Byte(b'(')),
                Symbol::Word(Class::Param),
                Symbol::Do(Act::BlockParam),
                Symbol::Word(Class::Byte(b':')),
                Symbol::Rule(Rule::Type),
                Symbol::Do(Act::BlockParamType),
                Symbol::Rule(Rule::MoreBlockParams),
                Symbol::Word(Class::Byte(b')')),
                Symbol::Word(Class::Byte(b':')),
            ],
        }],
        Rule::MoreBlockParams => &[Row {
            first: Class::Byte(b','),
            after: &[
                Symbol::Word(Class::Param),
                Symbol::Do(Act::BlockParam),
                Symbol::Word(Class::Byte(b':')),
                Symbol::Rule(Rule::Type),
                Symbol::Do(Act::BlockParamType),
                Symbol::Rule(Rule::MoreBlockParams),
            ],
        }],
        Rule::MoreIndexParams => &[Row {
            first: Class::Byte(b','),
            after: &[
                Symbol::Word(Class::Param),
                Symbol::Do(Act::IndexParam),
                Symbol::Rule(Rule::MoreIndexParams),
            ],
        }],
        Rule::Dependencies => &[Row {
            first: Class::Byte(b'['),
            after: &[
                Symbol::Word(Class::Use),
                Symbol::Do(Act::Operand),
                Symbol::Rule(Rule::Index),
                Symbol::Rule(Rule::MoreUses),
                Symbol::Word(Class::Byte(b']')),
            ],
        }],
        Rule::ValueOperands => &[Row {
            first: Class::Byte(b'('),
            after: &[
                Symbol::Word(Class::Use),
                Symbol::Do(Act::Operand),
                Symbol::Rule(Rule::Index),
                Symbol::Word(Class::Key(Keyword::As)),
                Symbol::Word(Class::Param),
                Symbol::Do(Act::Param),
                Symbol::Word(Class::Byte(b':')),
                Symbol::Rule(Rule::Type),
                Symbol::Do(Act::PayloadParam),
                Symbol::Do(Act::Written),
                Symbol::Rule(Rule::MoreValueOperands),
                Symbol::Word(Class::Byte(b')')),
            ],
        }],
        Rule::MoreValueOperands => &[Row {
            first: Class::Byte(b','),
            after: &[
                Symbol::Word(Class::Use),
                Symbol::Do(Act::Operand),
                Symbol::Rule(Rule::Index),
                Symbol::Word(Class::Key(Keyword::As)),
                Symbol::Word(Class::Param),
                Symbol::Do(Act::Param),
                Symbol::Word(Class::Byte(b':')),
                Symbol::Rule(Rule::Type),
                Symbol::Do(Act::PayloadParam),
                Symbol::Do(Act::Written),
                Symbol::Rule(Rule::MoreValueOperands),
            ],
        }],
        Rule::OpResults => &[Row {
            first: Class::Arrow,
            after: &[Symbol::Rule(Rule::ResultTypes), Symbol::Do(Act::Results)],
        }],
    }
}
